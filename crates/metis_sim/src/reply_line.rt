//! The line of a reply that has one.
ghost use Rattle.std.specs.Prelude.{◌≡◌, ◌≢◌, ◌∷◌, [], OnOk, string_bytes};
ghost use Rattle.metis_universe.specs.Terms.{Config, empty};
ghost use Rattle.metis_actions.specs.Terms.{IsFaultOf, fault_text};
ghost use Rattle.metis_sim.specs.Terms.{IsReplyOf, refused_line, reply_lines};

use crate::Reply;
use metis_actions::{AFault, fault_text};
use metis_output::Lines;
use metis_tokens::missing_line;
use metis_universe::Universe;
use std::alloc::{AllocError, Global};
use std::marker::Model;

/// The line of a reply that has one, until it is given. Contracts see the lines that are left.
#[derive(Drop)]
pub struct ReplyLine<'a> {
    alloc: Global,
    universe: &'a Universe,
    reply: Option<Reply>,
}

impl<'a> Model for ReplyLine<'a> {
    ghost use Rattle.std.specs.Prelude.{List, ℕ};
    ghost use Rattle.metis_sim.specs.Replies.{HasLine, line_left};

    ghost Value = { List (List ℕ) };

    ghost view = { λ l. line_left l.universe.now l.reply };

    ghost invariant = { λ l. HasLine l.universe.now l.reply };
}

impl<'a> ReplyLine<'a> {
    /// The line of this reply, whatever the configuration is.
    pub(crate) fn of(alloc: Global, universe: &'a Universe, reply: Reply) -> ReplyLine<'a>
        requires reply { IsReplyOf universe.now reply }
        requires one { reply ≢ Reply.Show }
        ensures { (c : Config) → result ≡ reply_lines universe.now c reply }
    {
        ReplyLine {
            alloc,
            universe,
            reply: Some(reply),
        }
    }

    /// No line.
    pub(crate) fn none(alloc: Global, universe: &'a Universe) -> ReplyLine<'a>
        ensures { result ≡ [] }
    {
        ReplyLine {
            alloc,
            universe,
            reply: None,
        }
    }
}

impl<'a> Lines for ReplyLine<'a> {
    ghost rest = { λ l. l };

    fn next_line(&mut self, line: &mut String) -> Result<bool, AllocError> {
        self.universe.keeps_invariant();
        let Some(reply) = self.reply.take() else {
            return Ok(false);
        };
        set_reply_line(line, self.alloc, self.universe, &reply)?;
        Ok(true)
    }
}

// The line becomes that of the reply.
fn set_reply_line(
    line: &mut String,
    alloc: Global,
    u: &Universe,
    r: &Reply,
) -> Result<(), AllocError>
    requires reply { IsReplyOf u.now r.now }
    requires one { r.now ≢ Reply.Show }
    ensures { OnOk result (reply_lines u.now empty r.now ≡ string_bytes line.new ∷ []) }
{
    match *r {
        Reply::Did => set_text(line, "ok\n"),
        Reply::Refused(fault) => set_refused(line, alloc, u, &fault),
        Reply::Undone => set_text(line, "undone\n"),
        Reply::Nothing => set_text(line, "nothing\n"),
        Reply::Holds => set_text(line, "holds\n"),
        Reply::Missing(goal, have, want) => {
            *line = missing_line(alloc, u, goal, have, want)?;
            Ok(())
        }
        Reply::Bye => set_text(line, "bye\n"),
        Reply::BadLine => set_text(line, "bad line\n"),
        Reply::Unknown => set_text(line, "unknown\n"),
        Reply::Show | Reply::Ended | Reply::NoMemory => unreachable!(),
    }
}

fn set_text(line: &mut String, text: &str) -> Result<(), AllocError>
    ensures { OnOk result (string_bytes line.new ≡ text.now) }
{
    line.clear();
    line.push_str(text)
}

fn set_refused(
    line: &mut String,
    alloc: Global,
    u: &Universe,
    fault: &AFault,
) -> Result<(), AllocError>
    requires { IsFaultOf u.now fault.now }
    ensures { OnOk result (string_bytes line.new ≡ refused_line (fault_text u.now fault.now)) }
{
    let text = fault_text(alloc, u, fault)?;
    line.clear();
    line.push_str("refused ")?;
    line.push_str(text.as_str())?;
    line.push_str("\n")
}
