//! The lines of a reply.
ghost use Rattle.std.specs.Prelude.{◌≡◌, IfOk};
ghost use Rattle.metis_outside.specs.Terms.{CountsFault, Writes};
ghost use Rattle.metis_sim.specs.Terms.{IsReplyOf, reply_lines};

use crate::reply_line::ReplyLine;
use crate::shown::{ShownLines, shown_lines};
use crate::{Reply, Session};
use metis_ids::NoMemory;
use metis_output::{Either, Lines, put_all};
use metis_outside::{Sink, Trouble};
use metis_universe::Universe;
use std::alloc::Global;

/// The lines of a reply. They keep what they need of the session, so that it may go on.
pub type ReplyLines<'a> = Either<ReplyLine<'a>, ShownLines<'a>>;

/// Puts the lines of the session's reply, each as one piece. The universe is the session's.
pub fn write_reply<K: Sink>(
    alloc: Global,
    u: &Universe,
    s: &Session<'_>,
    r: &Reply,
    out: &mut K,
) -> Result<(), Trouble>
    requires reply { IsReplyOf u.now r.now }
    requires session { s.now.universe ≡ u.now }
    ensures text { Writes (reply_lines u.now s.now.config r.now) (K.written out.old) (K.written out.new) result }
    ensures cause { CountsFault (K.faults out.old) (K.faults out.new) result }
{
    let Ok(mut lines) = reply_lines(alloc, u, s, r) else {
        return Err(Trouble::NoMemory);
    };
    put_all(alloc, &mut lines, out)
}

/// The lines of the session's reply. The universe is the session's.
pub fn reply_lines<'a>(
    alloc: Global,
    u: &'a Universe,
    s: &Session<'_>,
    r: &Reply,
) -> Result<ReplyLines<'a>, NoMemory>
    requires reply { IsReplyOf u.now r.now }
    requires session { s.now.universe ≡ u.now }
    ensures { IfOk result (λ l. ⟦<ReplyLines<'a> as Lines>⟧.rest l ≡ reply_lines u.now s.now.config r.now) }
{
    match *r {
        Reply::Show => Ok(Either::Second(shown_lines(alloc, u, s.config())?)),
        one => Ok(Either::First(ReplyLine::of(alloc, u, one))),
    }
}
