//! What a session over a universe replies to the lines of a script.
ghost use Rattle.std.specs.Prelude.{◌≡◌, ◌≢◌, ◌++◌, [], IfOk, IfNone, IfSome, drop, false, map};
ghost use Rattle.std.specs.List.{list_any};
ghost use Rattle.metis_tokens.specs.Terms.{script_lines};
ghost use Rattle.metis_sim.specs.Asked.{is_undo};
ghost use Rattle.metis_sim.specs.Terms.{begin, replies_to};

use crate::reply_line::ReplyLine;
use crate::write::{ReplyLines, reply_lines};
use crate::{Reply, Session};
use metis_ids::NoMemory;
use metis_output::{Either, Lines};
use metis_tokens::bytes::is;
use metis_tokens::script_lines;
use metis_universe::Universe;
use std::alloc::{AllocError, Global};
use std::marker::Model;

/// The lines that a session replies to the lines of a script. They are made one at a time, and the session goes on meanwhile.
#[derive(Drop)]
pub struct SessionLines<'a> {
    /// What is left of the reply to the line that was read last.
    reply: ReplyLines<'a>,
    replies: Replies<'a>,
}

/// The lines of the replies of a new session to the lines of the script, up to `quit`.
pub fn session_lines<'a>(
    alloc: Global,
    u: &'a Universe,
    script: &'a [u8],
) -> Result<SessionLines<'a>, NoMemory>
    ensures { IfOk result (λ l. ⟦<SessionLines<'a> as Lines>⟧.rest l ≡ replies_to u.now (begin u.now) (script_lines script.now)) }
{
    let replies = Replies::new(alloc, u, script)?;
    Ok(SessionLines {
        reply: Either::First(ReplyLine::none(alloc, u)),
        replies,
    })
}

impl<'a> Lines for SessionLines<'a> {
    ghost rest = { λ l. ⟦<ReplyLines<'a> as Lines>⟧.rest l.reply ++ l.replies };

    fn next_line(&mut self, line: &mut String) -> Result<bool, AllocError> {
        if self.reply.next_line(line)? {
            return Ok(true);
        }
        match self.replies.next_reply()? {
            Some(reply) => {
                self.reply = reply;
                self.reply.next_line(line)
            }
            None => Ok(false),
        }
    }
}

/// A session, and the lines of a script that it has not read. Contracts see the lines of its replies to them.
#[derive(Drop)]
struct Replies<'a> {
    alloc: Global,
    universe: &'a Universe,
    session: Session<'a>,
    script: Vec<&'a [u8]>,
    at: usize,
    /// The place behind the last `undo` of the script. From there on nothing need be kept.
    undone: usize,
}

impl<'a> Model for Replies<'a> {
    ghost use Rattle.std.specs.Prelude.{◌≡◌, ℕ, List, drop, false, map};
    ghost use Rattle.std.specs.List.{list_any};
    ghost use Rattle.metis_sim.specs.Asked.{is_undo};
    ghost use Rattle.metis_sim.specs.SessionLines.{replies_to};

    ghost Value = { List (List ℕ) };

    ghost view = { λ r. replies_to r.universe.now r.session (map (λ line. line.now) (drop r.at r.script.items)) };

    ghost invariant = { λ r. (r.session.universe ≡ r.universe.now) × (list_any is_undo (map (λ line. line.now) (drop r.undone r.script.items)) ≡ false) };
}

impl<'a> Replies<'a> {
    fn new(alloc: Global, u: &'a Universe, script: &'a [u8]) -> Result<Replies<'a>, NoMemory>
        ensures { IfOk result (λ r. r ≡ replies_to u.now (begin u.now) (script_lines script.now)) }
    {
        let script = script_lines(alloc, script)?;
        let undone = past_last_undo(&script);
        Ok(Replies {
            alloc,
            universe: u,
            session: Session::new(alloc, u),
            script,
            at: 0,
            undone,
        })
    }

    // The lines of the reply to the next line of the script. There is none behind the script, nor if the session has ended.
    fn next_reply(&mut self) -> Result<Option<ReplyLines<'a>>, AllocError>
        ensures replies { IfOk result (λ next. IfSome next (λ l. self.old ≡ ⟦<ReplyLines<'a> as Lines>⟧.rest l ++ self.new)) }
        ensures some { IfOk result (λ next. IfSome next (λ l. ⟦<ReplyLines<'a> as Lines>⟧.rest l ≢ [])) }
        ensures none { IfOk result (λ next. IfNone next (self.old ≡ [])) }
        ensures ended { IfOk result (λ next. IfNone next (self.new ≡ [])) }
    {
        if self.session.has_ended() {
            return Ok(None);
        }
        if self.at >= self.script.len() {
            return Ok(None);
        }
        let keeps = self.at < self.undone;
        let reply = self.session.reply_to(self.script[self.at], keeps);
        self.at += 1;
        if let Reply::NoMemory = reply {
            return Err(AllocError);
        }
        let Ok(lines) = reply_lines(self.alloc, self.universe, &self.session, &reply) else {
            return Err(AllocError);
        };
        Ok(Some(lines))
    }
}

// The place behind the last of these lines that is `undo`.
fn past_last_undo(lines: &[&[u8]]) -> usize
    ensures { list_any is_undo (map (λ line. line.now) (drop result lines.now)) ≡ false }
{
    let mut past = lines.len();
    while past > 0 && !is(lines[past - 1], "undo") {
        past -= 1;
    }
    past
}
