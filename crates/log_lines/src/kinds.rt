// Which kinds of events are asked for.

ghost use Rattle.std.specs.Prelude.{◌≡◌, ◌+◌, ◌≤◌, ◌∷◌, length, None, Some, bytes_eq, codes};
ghost use Rattle.std.specs.List.{position, position_or_len};
ghost use Rattle.log_lines.specs.Kinds.{is_comma, kind_named, kinds_into, kinds_of, no_kinds, kind_names, with_kind};

/// A kind of events.
#[derive(Clone, Copy)]
pub enum Kind {
    Traps,
    Worlds,
    Calls,
    Fences,
    Fills,
    Stale,
    Steps,
    Counts,
}

/// The kinds that are asked for.
#[derive(Clone, Copy)]
pub struct Kinds {
    pub traps: bool,
    pub worlds: bool,
    pub calls: bool,
    pub fences: bool,
    pub fills: bool,
    pub stale: bool,
    pub steps: bool,
    pub counts: bool,
}

impl Kinds {
    /// None of them.
    pub fn none() -> Kinds
        ensures { result ≡ no_kinds }
    {
        Kinds {
            traps: false,
            worlds: false,
            calls: false,
            fences: false,
            fills: false,
            stale: false,
            steps: false,
            counts: false,
        }
    }

    /// These and one more.
    #[tactic(auto, unfolding(crate::specs::Kinds::with_kind))]
    pub fn with(self, kind: Kind) -> Kinds
        ensures { result ≡ with_kind self kind }
    {
        let mut kinds = self;
        match kind {
            Kind::Traps => kinds.traps = true,
            Kind::Worlds => kinds.worlds = true,
            Kind::Calls => kinds.calls = true,
            Kind::Fences => kinds.fences = true,
            Kind::Fills => kinds.fills = true,
            Kind::Stale => kinds.stale = true,
            Kind::Steps => kinds.steps = true,
            Kind::Counts => kinds.counts = true,
        }
        kinds
    }
}

fn is_name(name: &[u8], kind: &[u8]) -> bool
    ensures { result ≡ bytes_eq name.now kind.now }
{
    name == kind
}

/// The kind of a name, if it is one.
#[tactic(auto, unfolding(crate::specs::Kinds::kind_named))]
pub fn kind_named(name: &[u8]) -> Option<Kind>
    ensures { result ≡ kind_named name.now }
{
    if is_name(name, b"traps") {
        return Some(Kind::Traps);
    }
    if is_name(name, b"worlds") {
        return Some(Kind::Worlds);
    }
    if is_name(name, b"calls") {
        return Some(Kind::Calls);
    }
    if is_name(name, b"fences") {
        return Some(Kind::Fences);
    }
    if is_name(name, b"fills") {
        return Some(Kind::Fills);
    }
    if is_name(name, b"stale") {
        return Some(Kind::Stale);
    }
    if is_name(name, b"steps") {
        return Some(Kind::Steps);
    }
    if is_name(name, b"counts") {
        return Some(Kind::Counts);
    }
    None
}

// Where the first comma is.
fn comma_in(bytes: &[u8]) -> Option<usize>
    ensures { result ≡ position is_comma bytes.now }
{
    bytes.iter().position(|byte| *byte == b',')
}

// How long the first name is: up to the first comma, or to the end.
#[tactic(auto, using(crate::proofs::Names::comma_found, crate::proofs::Names::no_comma))]
fn name_length(bytes: &[u8]) -> usize
    ensures value { result ≡ position_or_len is_comma bytes.now }
    ensures within { result ≤ length bytes.now }
{
    match comma_in(bytes) {
        Some(place) => place,
        None => bytes.len(),
    }
}

/// The kinds of a word: names with commas between, in any order. None where one of them is not a kind.
#[tactic(auto, unfolding(crate::specs::Kinds::kinds_of))]
pub fn kinds_of(word: &[u8]) -> Option<Kinds>
    ensures { result ≡ kinds_of word.now }
{
    let mut kinds = Kinds::none();
    let mut place = 0;
    while place <= word.len() {
        let end = place + name_length(&word[place..]);
        match kind_named(&word[place..end]) {
            Some(kind) => kinds = kinds.with(kind),
            None => return None,
        }
        place = end + 1;
    }
    Some(kinds)
}
