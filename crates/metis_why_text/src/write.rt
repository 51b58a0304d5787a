//! The text of an explanation, line by line.
ghost use Rattle.std.specs.Prelude.{◌≡◌, OnOk, map, string_bytes};
ghost use Rattle.std.specs.List.{All};
ghost use Rattle.metis_outside.specs.Terms.{CountsFault, Writes};
ghost use Rattle.metis_output.specs.Terms.{PutsByLine};
ghost use Rattle.metis_universe.specs.Terms.{IsGoalOf, IsWordable};
ghost use Rattle.metis_why.specs.Terms.{IsTellable};
ghost use Rattle.metis_why_text.specs.Terms.{count_line, lacks_line, line_text, why_front, why_lines};

use crate::words::{lacks_words, line_words};
use metis_ids::Goal;
use metis_output::{Chain, Each, Fixed, LineAt, Lines, put_all, set_text};
use metis_outside::{Sink, Trouble};
use metis_universe::Universe;
use metis_why::{Explanation, Line};
use std::alloc::{AllocError, Global};
use std::marker::Model;

/// Puts the text of the explanation, each line as one piece. Where it lacks a port, no type of the universe is named `port`. A line
/// of moves is about a pair in which no instance is made.
#[tactic(auto, using(metis_output::proofs::PutLines::puts_none, metis_outside::proofs::Writing::front_of_nothing))]
pub fn write_why<K: Sink>(
    alloc: Global,
    u: &Universe,
    why: &Explanation,
    out: &mut K,
) -> Result<(), Trouble>
    requires lacks { IsWordable u.now why.now.lacks }
    requires lines { All (IsTellable u.now) why.now.lines.items }
    ensures text { Writes (why_lines u.now why.now.lacks why.now.lines.items) (K.written out.old) (K.written out.new) result }
    ensures lines { PutsByLine (K.written out.old) (K.written out.new) result }
    ensures cause { CountsFault (K.faults out.old) (K.faults out.new) result }
{
    let mut lines = lines_of_why(alloc, u, why);
    put_all(alloc, &mut lines, out)
}

/// The lines of the text of the explanation.
pub fn lines_of_why<'a>(alloc: Global, u: &'a Universe, why: &'a Explanation) -> WhyLines<'a>
    requires lacks { IsWordable u.now why.now.lacks }
    requires lines { All (IsTellable u.now) why.now.lines.items }
    ensures { result ≡ why_lines u.now why.now.lacks why.now.lines.items }
{
    let behind = Chain {
        first: ReasonLines::of(alloc, u, &why.lines),
        second: Fixed::of("end\n"),
    };
    WhyLines {
        text: Chain {
            first: Each::of(WhyFront::of(alloc, u, why)),
            second: behind,
        },
    }
}

/// The lines of an explanation's text that are still to come. Contracts see them.
#[derive(Drop)]
pub struct WhyLines<'a> {
    text: WhyParts<'a>,
}

type WhyParts<'a> = Chain<Each<WhyFront<'a>>, Chain<ReasonLines<'a>, Fixed>>;

impl<'a> Model for WhyLines<'a> {
    ghost use Rattle.std.specs.Prelude.{ℕ, List};

    ghost Value = { List (List ℕ) };

    ghost view = { λ l. ⟦<WhyParts<'static> as Lines>⟧.rest l.text };
}

impl<'a> Lines for WhyLines<'a> {
    ghost rest = { λ l. l };

    fn next_line(&mut self, line: &mut String) -> Result<bool, AllocError> {
        self.text.next_line(line)
    }
}

// The first three lines of an explanation's text. Contracts see them.
#[derive(Drop)]
struct WhyFront<'a> {
    alloc: Global,
    universe: &'a Universe,
    why: &'a Explanation,
}

impl<'a> Model for WhyFront<'a> {
    ghost use Rattle.std.specs.Prelude.{ℕ, List};
    ghost use Rattle.metis_universe.specs.Goals.{IsGoalOf};
    ghost use Rattle.metis_why_text.specs.WhyText.{why_front};

    ghost Value = { List (List ℕ) };

    ghost view = { λ f. why_front f.universe.now f.why.now.lacks f.why.now.lines.items };

    ghost invariant = { λ f. IsGoalOf f.universe.now f.why.now.lacks };
}

impl<'a> WhyFront<'a> {
    // Those of this explanation.
    fn of(alloc: Global, universe: &'a Universe, why: &'a Explanation) -> WhyFront<'a>
        requires { IsGoalOf universe.now why.now.lacks }
        ensures { result ≡ why_front universe.now why.now.lacks why.now.lines.items }
    {
        WhyFront {
            alloc,
            universe,
            why,
        }
    }
}

impl<'a> LineAt for WhyFront<'a> {
    ghost lines = { λ f. f };

    fn count(&self) -> usize {
        // A call on a part shows what `self` is made of, and so its lines.
        self.universe.keeps_invariant();
        3
    }

    fn set_line(&self, place: usize, line: &mut String) -> Result<(), AllocError> {
        self.universe.keeps_invariant();
        match place {
            0 => set_text(line, "metis why 1\n"),
            1 => set_lacks(line, self.alloc, self.universe, self.why.lacks),
            _ => set_count(line, self.why.lines.len()),
        }
    }
}

// The line becomes that of the goal.
fn set_lacks(line: &mut String, alloc: Global, u: &Universe, goal: Goal) -> Result<(), AllocError>
    requires { IsGoalOf u.now goal }
    ensures { OnOk result (string_bytes line.new ≡ lacks_line u.now goal) }
{
    *line = lacks_words(alloc, u, goal)?;
    line.push_str("\n")
}

// The line becomes the one that says how many lines there are.
fn set_count(line: &mut String, count: usize) -> Result<(), AllocError>
    ensures { OnOk result (string_bytes line.new ≡ count_line count) }
{
    line.clear();
    write!(line, "lines {count}\n")
}

// The lines of the pairs with their reasons that are still to come. Contracts see the lines.
#[derive(Drop)]
struct ReasonLines<'a> {
    alloc: Global,
    universe: &'a Universe,
    lines: &'a [Line],
    at: usize,
}

impl<'a> Model for ReasonLines<'a> {
    ghost use Rattle.std.specs.Prelude.{ℕ, List, drop, map};
    ghost use Rattle.std.specs.List.{All};
    ghost use Rattle.metis_why.specs.Confirm.{IsTellable};
    ghost use Rattle.metis_why_text.specs.WhyText.{line_text};

    ghost Value = { List (List ℕ) };

    ghost view = { λ l. map (line_text l.universe.now) (drop l.at l.lines.now) };

    ghost invariant = { λ l. All (IsTellable l.universe.now) l.lines.now };
}

impl<'a> ReasonLines<'a> {
    /// Those of all these lines.
    fn of(alloc: Global, universe: &'a Universe, lines: &'a [Line]) -> ReasonLines<'a>
        requires { All (IsTellable universe.now) lines.now }
        ensures { result ≡ map (line_text universe.now) lines.now }
    {
        ReasonLines {
            alloc,
            universe,
            lines,
            at: 0,
        }
    }
}

impl<'a> Lines for ReasonLines<'a> {
    ghost rest = { λ l. l };

    fn next_line(&mut self, line: &mut String) -> Result<bool, AllocError> {
        self.universe.keeps_invariant();
        if self.at >= self.lines.len() {
            return Ok(false);
        }
        let lines = self.lines;
        set_reason(line, self.alloc, self.universe, &lines[self.at])?;
        self.at += 1;
        Ok(true)
    }
}

// The line becomes that of the pair with its reason.
fn set_reason(
    line: &mut String,
    alloc: Global,
    u: &Universe,
    reason: &Line,
) -> Result<(), AllocError>
    requires { IsTellable u.now reason.now }
    ensures { OnOk result (string_bytes line.new ≡ line_text u.now reason.now) }
{
    *line = line_words(alloc, u, reason)?;
    line.push_str("\n")
}
