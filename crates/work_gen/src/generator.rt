//! The generator: which line comes next. What the lines do is left to whatever serves them.

ghost use Rattle.std.specs.Prelude.{◌≡◌, suc, ◌<◌};
ghost use Rattle.script_model.specs.Grammar.{CommandFits, PayloadFits, IsLine, spelled};
ghost use Rattle.work_gen.specs.Generator.{started, next_number, number_after, drawn, place_at};
ghost use Rattle.work_gen.specs.Generator.{length_at, payload_at, command_on, command_after, drawn_command};
ghost use Rattle.work_gen.specs.Generator.{further_draws, draws_of, has_begun, next_line, after_line};

use eos_ops::{Command, Payload};
use script_model::Line;
use std::marker::Model;

/// Makes lines from a start value: sessions 1 to 4 begin, work on objects 0 to 15 and end. In
/// contracts it is the number that it keeps, and which of the sessions have begun.
#[derive(Clone, Debug, Drop)]
pub struct Gen {
    number: u32,
    begun: [bool; 4],
}

impl Model for Gen {
    ghost use Rattle.work_gen.specs.Generator.{Generator};

    ghost Value = { Generator };

    ghost view = { λ g. record { number = g.number; begun = g.begun } };
}

impl Gen {
    /// A generator that no session has begun with.
    pub fn new(start: u32) -> Gen
        ensures { result ≡ started start }
    {
        Gen {
            number: start,
            begun: [false; 4],
        }
    }

    /// Makes the next line. It takes no memory.
    pub fn next_line(&mut self) -> Line
        ensures line { result ≡ next_line self.old }
        ensures after { self.new ≡ after_line self.old }
        ensures fits { IsLine (spelled result) result }
    {
        let turn = draw(&mut self.number) % 4;
        let command = drawn_command(self.begun[turn as usize], &mut self.number);
        self.begun[turn as usize] = goes_on_after(&command);
        Line {
            session: turn + 1,
            command,
        }
    }
}

/// Moves the number on, and gives its upper half.
fn draw(number: &mut u32) -> u32
    ensures value { result ≡ drawn 1 number.old }
    ensures after { number.new ≡ next_number number.old }
    ensures half { result < 65536 }
{
    let product = 1_664_525 * u64::from(*number) + 1_013_904_223;
    *number = (product % (1 << 32)) as u32;
    *number >> 16
}

/// A place in an object.
fn place(number: &mut u32) -> u64
    ensures value { result ≡ place_at 1 number.old }
    ensures after { number.new ≡ next_number number.old }
{
    u64::from(draw(number) % 4096)
}

/// A number of bytes.
fn length(number: &mut u32) -> u64
    ensures value { result ≡ length_at 1 number.old }
    ensures after { number.new ≡ next_number number.old }
{
    1 + u64::from(draw(number) % 2000)
}

/// Bytes to be made.
fn payload(number: &mut u32) -> Payload
    ensures value { result ≡ payload_at 1 number.old }
    ensures after { number.new ≡ number_after 2 number.old }
    ensures fits { PayloadFits result }
{
    Payload::Made {
        len: length(number),
        start: draw(number),
    }
}

/// The command of a session: it begins, or goes on where it has begun.
fn drawn_command(goes_on: bool, number: &mut u32) -> Command
    ensures value { result ≡ drawn_command goes_on number.old }
    ensures after { number.new ≡ number_after (draws_of goes_on result) number.old }
    ensures fits { CommandFits result }
{
    if goes_on {
        command_after(number)
    } else {
        Command::Begin
    }
}

/// Whether a session has begun after this command.
fn goes_on_after(command: &Command) -> bool
    ensures { result ≡ has_begun command.now }
{
    !matches!(command, Command::Commit | Command::Abort)
}

/// The command of a session that has begun.
fn command_after(number: &mut u32) -> Command
    ensures value { result ≡ command_after number.old }
    ensures after { number.new ≡ number_after (suc (further_draws result)) number.old }
    ensures fits { CommandFits result }
{
    match draw(number) % 20 {
        0 => Command::Commit,
        1 => Command::Abort,
        17 => Command::Status,
        kind => command_on(kind, number),
    }
}

/// The command of this kind on an object.
fn command_on(kind: u32, number: &mut u32) -> Command
    ensures value { result ≡ command_on kind number.old }
    ensures after { number.new ≡ number_after (further_draws result) number.old }
    ensures fits { CommandFits result }
{
    let object = u64::from(draw(number) % 16);
    match kind {
        2 => Command::Create {
            object,
            threshold: None,
        },
        3 | 4 | 5 | 18 | 19 => Command::Append {
            object,
            payload: payload(number),
        },
        6 | 7 | 8 => Command::Insert {
            object,
            at: place(number),
            payload: payload(number),
        },
        9 | 10 => Command::Delete {
            object,
            at: place(number),
            len: length(number),
        },
        11 | 12 => Command::Replace {
            object,
            at: place(number),
            payload: payload(number),
        },
        13 | 14 => Command::Read {
            object,
            at: place(number),
            len: length(number),
        },
        15 => Command::Length { object },
        _ => Command::Destroy { object },
    }
}
