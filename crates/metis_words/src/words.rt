//! The parts of a command.
ghost use Rattle.std.specs.Prelude.{◌≡◌, ◌<◌, ◌≤◌, length};
ghost use Rattle.std.specs.List.{All};
ghost use Rattle.metis_words.specs.Terms.{file_count, number_count, reads, target_limit, verb_named, word_at};
ghost use Rattle.metis_words.specs.declared.words.WordFault.TheVariants.{NoMemory};

use std::alloc::{AllocError, AllocFailed};
use std::marker::Model;

/// What a command does.
#[derive(Clone, Copy)]
pub enum Verb {
    /// Plans for target words.
    Plan,
    /// Replays a plan, and looks for target words at its end.
    Replay,
    /// Checks a refusal of target words.
    Refute,
    /// Audits the dups and the instances of a plan for target words.
    Audit,
    /// Runs a session.
    Sim,
    /// Lets a crew take turns over a plan.
    Crew,
    /// Tells when each action of a plan may start.
    Waves,
    /// Gives a plan's actions the waits that they need.
    Waits,
    /// Runs a controller and agents for a plan, over a net that loses and repeats.
    Control,
    /// Goes from a plan to other targets, and removes what the plan left.
    Rollout,
    /// Goes from a plan to other targets by wishes, and keeps what serves them.
    Reconfigure,
    /// Puts a plan's instances on hosts with room.
    Place,
    /// Prints the universe.
    Print,
    /// Plans for the generated universe of a size, and replays the plan.
    Load,
    /// Explains why target words are never attained.
    Why,
    /// Checks an explanation for target words.
    Confirm,
}

/// The verb of this name.
pub fn verb_named(word: &str) -> Option<Verb>
    ensures { result ≡ verb_named word.now }
{
    match word {
        "plan" => Some(Verb::Plan),
        "replay" => Some(Verb::Replay),
        "refute" => Some(Verb::Refute),
        "audit" => Some(Verb::Audit),
        "sim" => Some(Verb::Sim),
        "crew" => Some(Verb::Crew),
        "waves" => Some(Verb::Waves),
        "waits" => Some(Verb::Waits),
        "control" => Some(Verb::Control),
        "rollout" => Some(Verb::Rollout),
        "reconfigure" => Some(Verb::Reconfigure),
        "place" => Some(Verb::Place),
        "print" => Some(Verb::Print),
        "load" => Some(Verb::Load),
        "why" => Some(Verb::Why),
        "confirm" => Some(Verb::Confirm),
        _ => None,
    }
}

/// What a command reads of its file words.
#[derive(Clone, Copy)]
enum Reads {
    Nothing,
    /// A universe, and so many texts behind it.
    Universe(usize),
    /// A universe in which the target words are goals, and so many texts behind it.
    Goals(usize),
}

impl Verb {
    // The row of the command.
    fn reads(self) -> Reads
        ensures { result ≡ reads self }
    {
        match self {
            Verb::Load => Reads::Nothing,
            Verb::Print => Reads::Universe(0),
            Verb::Sim | Verb::Waves | Verb::Waits => Reads::Universe(1),
            Verb::Crew | Verb::Control | Verb::Place => Reads::Universe(2),
            Verb::Plan | Verb::Why => Reads::Goals(0),
            Verb::Replay | Verb::Refute | Verb::Audit | Verb::Rollout | Verb::Confirm =>
                Reads::Goals(1),
            Verb::Reconfigure => Reads::Goals(2),
        }
    }

    /// How many file words the command has.
    pub fn file_count(self) -> usize
        ensures { result ≡ file_count self }
    {
        match self.reads() {
            Reads::Nothing => 0,
            Reads::Universe(texts) | Reads::Goals(texts) => texts + 1,
        }
    }

    /// How many target words the command has at most.
    pub fn target_limit(self) -> usize
        ensures { result ≡ target_limit self }
    {
        match self.reads() {
            Reads::Nothing | Reads::Universe(_) => 0,
            Reads::Goals(_) => 256,
        }
    }

    /// How many numbers the command has.
    pub fn number_count(self) -> usize
        ensures { result ≡ number_count self }
    {
        match self {
            Verb::Waves => 5,
            _ => 0,
        }
    }
}

/// A word that names a pair by its type and its state, or a port behind `port`.
#[derive(Drop)]
pub struct TargetWord {
    pub kind: String,
    pub state: String,
}

impl Model for TargetWord {
    ghost use Rattle.std.specs.String.{string_bytes};
    ghost use Rattle.metis_words.specs.TargetName.{TargetName};

    ghost Value = { TargetName };

    ghost view = { λ t. record { kind = string_bytes t.kind; state = string_bytes t.state } };
}

/// The words of a command. Lists that the form of its verb does not have are empty, and such a size is 0.
#[derive(Drop)]
pub struct Command {
    pub verb: Verb,
    pub files: Vec<String>,
    pub targets: Vec<TargetWord>,
    pub size: u32,
    pub numbers: Vec<u32>,
}

impl Model for Command {
    ghost use Rattle.metis_universe.specs.Texts.{texts};
    ghost use Rattle.metis_words.specs.Form.{FitsRow, Form, form_by};

    ghost Value = { Form };

    ghost view = { λ c. form_by c.verb (texts c.files.items) c.targets.items c.size c.numbers.items };

    ghost invariant = { λ c. FitsRow (form_by c.verb (texts c.files.items) c.targets.items c.size c.numbers.items) };
}

impl Command {
    /// The file word of this number.
    pub fn file(&self, k: usize) -> &str
        requires { k < file_count self.now.verb }
        ensures { result.now ≡ word_at self.now.files k }
    {
        &self.files[k]
    }

    /// The target words.
    pub fn targets(&self) -> &[TargetWord]
        ensures words { result.now ≡ self.now.targets }
        ensures few { length result.now ≤ target_limit self.now.verb }
    {
        self.targets.as_slice()
    }

    /// The numbers, each at most 1,000,000.
    pub fn numbers(&self) -> &[u32]
        ensures numbers { result.now ≡ self.now.numbers }
        ensures count { length result.now ≡ number_count self.now.verb }
        ensures small { All (λ n. n ≤ 1000000) result.now }
    {
        self.numbers.as_slice()
    }
}

/// Why words are no command.
#[derive(Clone, Copy, PartialEq, Eq)]
pub enum WordFault {
    /// The place, from 1, of the first word that does not fit.
    At(u32),
    NoMemory,
}

impl From<AllocError> for WordFault {
    ghost from_gives = { λ _ e. e ≡ NoMemory };

    fn from(_: AllocError) -> Self {
        WordFault::NoMemory
    }
}

impl<T: Drop> From<AllocFailed<T>> for WordFault {
    ghost from_gives = { λ _ e. e ≡ NoMemory };

    fn from(_: AllocFailed<T>) -> Self {
        WordFault::NoMemory
    }
}
