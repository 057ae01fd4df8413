// The talk with gdb, on a connection.

ghost use Rattle.std.specs.Prelude.{◌≡◌, ◌≤◌, ◌++◌, [], codes, is_ok, IfOk, IsErrOf, OnOk};
ghost use Rattle.gdb_packets.specs.declared.messages.Message.TheVariants.{Packet};
ghost use Rattle.outside.specs.Faults.{Rose};
ghost use Rattle.gdb_stub.specs.Sessions.{recording_of, state_after, session_state, ShowsPosition, KeepsSession};
ghost use Rattle.gdb_stub.specs.Talks.{early_end, is_kill, is_last, packet_for, talk_of, HasCauses, HasCome, HasGoneOn, HasHeard, HasSaid, HasTalked, OnlySends};
ghost use Rattle.gdb_stub.specs.declared.talks.TalkEnd.TheVariants as talk_end;

use crate::sessions::Session;
use gdb_commands::{Command, command_of};
use gdb_packets::{Message, Unread, frame};
use no_memory::NoMemory;
use outside::{Connection, SinkFault};
use run_positions::Runner;
use std::alloc::Global;

// How many bytes are read at once.
const PIECE: usize = 4_096;

// More bytes than a packet may have.
const MOST: usize = 1 << 24;

/// Why a talk has ended before gdb left or its stream ended.
#[derive(Clone, Copy)]
pub enum TalkEnd {
    ReadFault,
    WriteFault,
    /// Out of memory, or a packet has more than 2^24 bytes.
    NoMemory,
}

impl From<NoMemory> for TalkEnd {
    ghost from_gives = { λ _ end. end ≡ talk_end.NoMemory };

    fn from(_: NoMemory) -> TalkEnd {
        TalkEnd::NoMemory
    }
}

impl From<SinkFault> for TalkEnd {
    ghost from_gives = { λ _ end. end ≡ talk_end.WriteFault };

    fn from(_: SinkFault) -> TalkEnd {
        TalkEnd::WriteFault
    }
}

/// A session with the bytes that have come and are not read yet, and the packet that was sent last.
#[derive(Drop)]
pub struct Talk<R> {
    session: Session<R>,
    come: Unread,
    sent: Vec<u8>,
}

// A packet that asks for the last one again.
const WRONG: &[u8] = b"-";

// Whether gdb waits for no answer.
fn is_kill(command: Command) -> bool
    ensures { result ≡ is_kill command }
{
    matches!(command, Command::Kill)
}

// Whether gdb leaves.
fn is_last(command: Command) -> bool
    ensures { result ≡ is_last command }
{
    matches!(command, Command::Detach | Command::Kill)
}

// That a packet has come, and the packet that answers it.
fn acknowledged(alloc: Global, packet: &[u8]) -> Result<Vec<u8>, NoMemory>
    ensures { IfOk result (λ said. said.items ≡ codes "+" ++ packet.now) }
{
    let mut said = Vec::from_slice(alloc, b"+")?;
    said.extend_from_slice(packet)?;
    Ok(said)
}

// Sends bytes, and reads none.
#[tactic(auto, using(crate::proofs::Talking::sayings))]
fn say<C: Connection>(bytes: &[u8], connection: &mut C) -> Result<(), TalkEnd>
    ensures said { HasSaid C.Connection (is_ok result) bytes.now connection.old connection.new }
    ensures causes { OnlySends C.Connection result connection.old connection.new }
{
    connection.send(bytes)?;
    Ok(())
}

// Says that a packet has come, and answers it with a packet.
#[tactic(auto, using(crate::proofs::Talking::sayings))]
fn acknowledge<C: Connection>(
    alloc: Global,
    packet: &[u8],
    connection: &mut C,
) -> Result<(), TalkEnd>
    ensures said { HasSaid C.Connection (is_ok result) (codes "+" ++ packet.now)
        connection.old connection.new }
    ensures causes { OnlySends C.Connection result connection.old connection.new }
{
    let said = acknowledged(alloc, packet)?;
    say(said.as_slice(), connection)
}

// A piece of what comes, behind what has come; whether there is more.
#[tactic(auto, using(crate::proofs::Talking::comings))]
fn receive<C: Connection>(connection: &mut C, come: &mut Unread) -> Result<bool, TalkEnd>
    ensures come { HasCome C.Connection come.old come.new result connection.old connection.new }
    ensures read_cause { IsErrOf result TalkEnd.ReadFault
        → Rose (C.read_faults connection.old) (C.read_faults connection.new) }
    ensures read_count { C.read_faults connection.old ≤ C.read_faults connection.new }
    ensures write { C.write_faults connection.new ≡ C.write_faults connection.old }
{
    let mut room = [0; PIECE];
    let Ok(n) = connection.receive(&mut room) else {
        return Err(TalkEnd::ReadFault);
    };
    if n == 0 {
        return Ok(false);
    }
    come.add(&room[..n])?;
    Ok(true)
}

impl<R: Runner + Drop> Talk<R> {
    /// The talk about a session, of which nothing has been said.
    pub fn new(alloc: Global, session: Session<R>) -> Talk<R>
        ensures session { result.session ≡ session }
        ensures talk { talk_of result ≡ record { session = session_state session; sent = [] } }
        ensures come { result.come ≡ [] }
    {
        Talk {
            session,
            come: Unread::new(alloc),
            sent: Vec::new(alloc),
        }
    }

    // Does what a command asks for, and answers the packet that says so.
    fn obey(&mut self, alloc: Global, command: Command) -> Result<Vec<u8>, NoMemory>
        requires held { ShowsPosition R.Runner self.old.session }
        ensures keeps { KeepsSession R.Runner self.old.session self.new.session }
        ensures state { OnOk result (session_state self.new.session
            ≡ state_after (recording_of R.Runner self.old.session) (session_state self.old.session) command) }
        ensures packet { IfOk result (λ packet. packet.items
            ≡ packet_for (recording_of R.Runner self.old.session) (session_state self.old.session) command) }
        ensures come { self.new.come ≡ self.old.come }
    {
        let answer = self.session.answer(alloc, command)?;
        if is_kill(command) {
            return Ok(Vec::new(alloc));
        }
        frame(alloc, answer.as_slice())
    }

    // Answers a packet; whether gdb stays.
    #[tactic(auto, using(crate::proofs::Talking::sayings))]
    fn hear_packet<C: Connection>(
        &mut self,
        alloc: Global,
        payload: &[u8],
        connection: &mut C,
    ) -> Result<bool, TalkEnd>
        requires held { ShowsPosition R.Runner self.old.session }
        ensures keeps { KeepsSession R.Runner self.old.session self.new.session }
        ensures heard { HasHeard C.Connection (recording_of R.Runner self.old.session)
            (talk_of self.old) (talk_of self.new) (Packet payload.now) result
            connection.old connection.new }
        ensures come { self.new.come ≡ self.old.come }
        ensures causes { OnlySends C.Connection result connection.old connection.new }
    {
        let command = command_of(alloc, payload)?;
        self.sent = self.obey(alloc, command)?;
        acknowledge(alloc, self.sent.as_slice(), connection)?;
        Ok(!is_last(command))
    }

    // Answers a message; whether gdb stays.
    #[tactic(auto, using(crate::proofs::Talking::sayings))]
    fn hear<C: Connection>(
        &mut self,
        alloc: Global,
        message: Message,
        connection: &mut C,
    ) -> Result<bool, TalkEnd>
        requires held { ShowsPosition R.Runner self.old.session }
        ensures keeps { KeepsSession R.Runner self.old.session self.new.session }
        ensures heard { HasHeard C.Connection (recording_of R.Runner self.old.session)
            (talk_of self.old) (talk_of self.new) message result connection.old connection.new }
        ensures come { self.new.come ≡ self.old.come }
        ensures causes { OnlySends C.Connection result connection.old connection.new }
    {
        match message {
            Message::Packet(payload) => self.hear_packet(alloc, payload.as_slice(), connection),
            Message::BadSum | Message::BadEscape => {
                say(WRONG, connection)?;
                Ok(true)
            }
            Message::Nack => {
                say(self.sent.as_slice(), connection)?;
                Ok(true)
            }
            Message::Ack | Message::Interrupt | Message::Stray => Ok(true),
        }
    }

    // Answers a message that has come, or waits for more where none is left; whether gdb stays.
    #[tactic(auto, using(crate::proofs::Talking::talkings))]
    fn go_on<C: Connection>(&mut self, alloc: Global, connection: &mut C) -> Result<bool, TalkEnd>
        requires held { ShowsPosition R.Runner self.old.session }
        ensures keeps { KeepsSession R.Runner self.old.session self.new.session }
        ensures talked { HasGoneOn C.Connection (recording_of R.Runner self.old.session)
            (talk_of self.old) (talk_of self.new) self.old.come self.new.come result
            connection.old connection.new }
        ensures causes { HasCauses C.Connection result connection.old connection.new }
    {
        if self.come.len() > MOST {
            return Err(TalkEnd::NoMemory);
        }
        match self.come.next(alloc)? {
            Some(message) => self.hear(alloc, message, connection),
            None => receive(connection, &mut self.come),
        }
    }

    /// Answers all that comes, up to where the stream ends or gdb leaves: what was said at each end, and that
    /// more was waited for only when all that had come was answered. Whatever comes, the machine that is
    /// shown is that of the run at its position.
    #[tactic(auto, using(crate::proofs::Talking::talkings))]
    pub fn serve<C: Connection>(&mut self, alloc: Global, connection: &mut C) -> Result<(), TalkEnd>
        requires held { ShowsPosition R.Runner self.old.session }
        ensures keeps { KeepsSession R.Runner self.old.session self.new.session }
        ensures talked { HasTalked C.Connection (recording_of R.Runner self.old.session)
            (talk_of self.old) self.old.come (early_end result) connection.old connection.new }
        ensures causes { HasCauses C.Connection result connection.old connection.new }
    {
        for _ in 0..u64::MAX {
            match self.go_on(alloc, connection) {
                Ok(true) => {}
                Ok(false) => return Ok(()),
                Err(end) => return Err(end),
            }
        }
        Err(TalkEnd::NoMemory)
    }
}
