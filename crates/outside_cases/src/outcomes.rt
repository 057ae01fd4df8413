// What the cases of a file have come to.

use crate::asks::WantedBytes;
use std::alloc::Global;

// How many bytes are shown before the first that differs, and from it on.
const BEFORE: usize = 40;

const BEHIND: usize = 80;

/// The lines that tell where cases differ, and how many there were.
#[derive(Drop)]
pub struct Outcome<'a> {
    file: &'a str,
    text: String,
    case: &'a [u8],
    cases: u64,
    asks: u64,
    runs: u64,
    different: u64,
    // Whether this case has differed already.
    differs: bool,
    lacks_memory: bool,
}

impl<'a> Outcome<'a> {
    pub fn new(alloc: Global, file: &'a str) -> Outcome<'a> {
        Outcome {
            file,
            text: String::new(alloc),
            case: &[],
            cases: 0,
            asks: 0,
            runs: 0,
            different: 0,
            differs: false,
            lacks_memory: false,
        }
    }

    /// Counts a case.
    pub fn begin_case(&mut self, name: &'a [u8]) {
        self.case = name;
        self.cases = self.cases.saturating_add(1);
        self.differs = false;
    }

    /// Counts an ask.
    pub fn begin_ask(&mut self) {
        self.asks = self.asks.saturating_add(1);
    }

    /// Counts a run.
    pub fn begin_run(&mut self) {
        self.runs = self.runs.saturating_add(1);
    }

    /// Notes that there was no memory for a case.
    pub fn lack_memory(&mut self) {
        self.lacks_memory = true;
    }

    // Whether a difference is the first of its case, which alone is told.
    fn begin_difference(&mut self) -> bool {
        let is_first = !self.differs;
        self.differs = true;
        self.different = self.different.saturating_add(u64::from(is_first));
        is_first
    }

    /// Tells a number that is not in its bounds.
    pub fn check_number(&mut self, what: &str, came: u64, least: u64, most: u64) {
        if (came < least || came > most) && self.begin_difference() {
            self.push_place(what);
            let written = writeln!(self.text, "{came}, wanted {least} to {most}");
            self.lacks_memory |= written.is_err();
        }
    }

    /// Tells bytes that are others than those that are wanted.
    pub fn check_bytes(&mut self, what: &str, came: &[u8], wanted: WantedBytes<'_>) {
        let alike = alike(came, wanted.bytes);
        let is_front = alike == came.len();
        let is_right = is_front && wanted.least <= alike && alike <= wanted.most;
        if !is_right && self.begin_difference() {
            self.push_place(what);
            self.push_shown(part(came, alike));
            self.push(", wanted ");
            self.push_shown(part(wanted.bytes, alike));
            self.push("\n");
        }
    }

    /// Tells bytes that are others than these.
    pub fn check_text(&mut self, what: &str, came: &[u8], wanted: &[u8]) {
        let bounds = WantedBytes {
            is_known: true,
            bytes: wanted,
            least: wanted.len(),
            most: wanted.len(),
        };
        self.check_bytes(what, came, bounds);
    }

    /// The lines, and behind them the counts, or what is wrong with the file.
    pub fn end(mut self, is_damaged: bool) -> String {
        let Outcome {
            file,
            cases,
            asks,
            runs,
            different,
            ..
        } = self;
        let written = if self.lacks_memory {
            writeln!(self.text, "{file}: out of memory")
        } else if is_damaged {
            writeln!(self.text, "{file}: the data are damaged")
        } else {
            writeln!(
                self.text,
                "{file}: {cases} cases, {asks} asks, {runs} runs, {different} differ"
            )
        };
        self.lacks_memory |= written.is_err();
        self.text
    }

    // Where a difference is, and of what.
    fn push_place(&mut self, what: &str) {
        self.push(self.file);
        self.push(": ");
        self.push_shown(self.case);
        self.push(": ");
        self.push(what);
        self.push(" ");
    }

    fn push(&mut self, text: &str) {
        self.lacks_memory |= self.text.push_str(text).is_err();
    }

    // Appends these bytes, those that are not visible letters as `\xHH`.
    fn push_shown(&mut self, bytes: &[u8]) {
        for byte in bytes {
            let pushed = if *byte < 0x20 || *byte > 0x7E || *byte == b'\\' {
                write!(self.text, "\\x{byte:02x}").is_ok()
            } else {
                self.text.push(char::from(*byte)).is_ok()
            };
            self.lacks_memory |= !pushed;
        }
    }
}

// How many bytes are alike.
fn alike(left: &[u8], right: &[u8]) -> usize {
    for place in 0..left.len().min(right.len()) {
        if left[place] != right[place] {
            return place;
        }
    }
    left.len().min(right.len())
}

// The bytes around a place.
fn part(bytes: &[u8], place: usize) -> &[u8] {
    let to = place.saturating_add(BEHIND).min(bytes.len());
    &bytes[place.saturating_sub(BEFORE).min(to)..to]
}
