//! The lines of a cluster are closed, and the tokens that were on their way are handed out.
ghost use Rattle.std.specs.Prelude.{◌≡◌, ◌≤◌, ◌∷◌, ◌++◌, ℕ, All, List, Some, [], length, slice_get, vec_len, IfOk};
ghost use Rattle.std.specs.Prelude.{OnOk};
ghost use Rattle.lc_line.specs.Ends.{rest_of};
ghost use Rattle.lc_cluster.specs.Closing.{AreJoined, GivesAll, GivesBoth, Grows, IsBehindFirst, left_on};
ghost use Rattle.lc_segments.specs.Each.{Each};
ghost use Rattle.lc_lock.specs.Loans.{key_of};
ghost use Rattle.lc_cluster.specs.Keys.{AreOnLines, AreWiredAs, HasOneKey, wired_in};
ghost use Rattle.lc_cluster.specs.Messages.{tokens_among};
ghost use Rattle.lc_cluster.specs.Receiving.{origin_of, taken_of};
ghost use Rattle.lc_cluster.specs.Spread.{line_of, sent_to};
ghost use Rattle.lc_node.specs.declared.message.Message.{Message as Sent};
ghost use Rattle.lc_cluster.specs.declared.wiring.NodeEnds.{NodeEnds as TheEnds};

use crate::joining::Post;
use crate::peer_end::PeerEnd;
use crate::peer_inbox::PeerInbox;
use crate::wiring::NodeEnds;
use lc_line::{ROOM, Rest, close_line};
use lc_node::Message;
use std::alloc::{AllocError, Global};
use std::sync::Wait;

// Adds the token that a message is, if it is one.
fn add_token<P: Drop>(message: Message<P>, tokens: &mut Vec<P>) -> Result<(), AllocError>
    ensures grows { Grows tokens.old.items tokens.new.items }
    ensures token { OnOk result (tokens.new.items ≡ tokens.old.items ++ tokens_among (message ∷ [])) }
{
    if let Message::Token(token) = message {
        tokens.push(token)?;
    }
    Ok(())
}

// Adds the tokens of what is left on a line, at most `ROOM` messages.
fn drain<R: Wait, P: Drop>(
    rt: &R,
    rest: Rest<Message<P>>,
    tokens: &mut Vec<P>,
) -> Result<(), AllocError>
    requires room { length (rest_of rest) ≤ 64 }
    ensures grows { Grows tokens.old.items tokens.new.items }
    ensures tokens { OnOk result (tokens.new.items ≡ tokens.old.items ++ tokens_among (rest_of rest)) }
{
    let mut rest = rest;
    for _ in 0..ROOM {
        let Some(message) = rest.take(rt) else {
            break;
        };
        add_token(message, tokens)?;
    }
    Ok(())
}

/// Closes a line, and adds the tokens that are still on it: the one that its receiving end keeps, and then those that
/// were sent and not taken. What had been taken is what was sent first. Records that are still on it are dropped.
fn close<R: Wait, P: Drop>(
    rt: &R,
    to: PeerEnd<P>,
    from: PeerInbox<P>,
    tokens: &mut Vec<P>,
) -> Result<(), AllocError>
    requires line { origin_of from ≡ line_of to }
    ensures arrived { (rest : List (Sent P)) × (sent_to to ≡ taken_of from ++ rest) }
    ensures grows { Grows tokens.old.items tokens.new.items }
    ensures tokens { OnOk result (tokens.new.items ≡ tokens.old.items ++ left_on to from) }
{
    let PeerInbox { end, kept } = from;
    let rest = close_line(to.end, end);
    if let Some(message) = kept {
        add_token(message, tokens)?;
    }
    drain(rt, rest, tokens)
}

// Closes both lines between a node and a peer, each of which has its ends of them in front.
fn close_both<R: Wait, P: Drop>(
    rt: &R,
    mine: &mut NodeEnds<P>,
    peer: &mut NodeEnds<P>,
    tokens: &mut Vec<P>,
) -> Result<(), AllocError>
    requires lines { AreJoined 0 mine.old peer.old }
    ensures mine { OnOk result (IsBehindFirst mine.old mine.new) }
    ensures peer { OnOk result (IsBehindFirst peer.old peer.new) }
    ensures grows { Grows tokens.old.items tokens.new.items }
    ensures tokens { OnOk result (GivesBoth 0 mine.old peer.old tokens.new.items) }
{
    close(rt, mine.to.ends.remove(0), peer.from.ends.remove(0), tokens)?;
    close(rt, peer.to.ends.remove(0), mine.from.ends.remove(0), tokens)
}

// Closes the lines between a node and each of these peers, which have their ends of them in front.
fn close_with_all<R: Wait, P: Drop>(
    rt: &R,
    mine: NodeEnds<P>,
    peers: &mut Vec<NodeEnds<P>>,
    tokens: &mut Vec<P>,
) -> Result<(), AllocError>
    requires lines { (place : ℕ) (peer : TheEnds P) → slice_get peers.old.items place ≡ Some peer
        → AreJoined place mine peer }
    ensures peers { OnOk result (Each IsBehindFirst peers.old.items peers.new.items) }
    ensures grows { Grows tokens.old.items tokens.new.items }
    ensures tokens { OnOk result ((place : ℕ) (peer : TheEnds P) → slice_get peers.old.items place ≡ Some peer
        → GivesBoth place mine peer tokens.new.items) }
{
    let mut mine = mine;
    for place in 0..peers.len() {
        close_both(rt, &mut mine, &mut peers[place], tokens)?;
    }
    Ok(())
}

impl<P: Drop> Post<P> {
    // The ends, out of their locks, which nobody else has.
    fn take<R: Wait>(self, rt: &R) -> NodeEnds<P>
        requires one_key { HasOneKey self }
        ensures { AreOnLines (key_of self.to) result }
    {
        let Post { to, from } = self;
        let (sending, loan) = to.lock(rt);
        to.end(loan);
        let (receiving, loan) = from.lock(rt);
        from.end(loan);
        NodeEnds {
            to: sending,
            from: receiving,
        }
    }
}

/// The ends of all nodes, out of their locks, which nobody else has. It takes memory for the list.
pub(crate) fn take_ends<R: Wait, P: Drop>(
    rt: &R,
    alloc: Global,
    posts: Vec<Post<P>>,
) -> Result<Vec<NodeEnds<P>>, AllocError>
    requires wired { AreWiredAs (vec_len posts) (wired_in posts.items) }
    requires one_key { All HasOneKey posts.items }
    ensures count { IfOk result (λ all. vec_len all ≡ vec_len posts) }
    ensures wired { IfOk result (λ all. AreWiredAs (vec_len all) all.items) }
{
    let mut posts = posts;
    let mut all = Vec::with_capacity(alloc, posts.len())?;
    for _ in 0..posts.len() {
        all.push_reserved(posts.remove(0).take(rt));
    }
    Ok(all)
}

/// Closes the lines from each node to each other, and hands out the tokens that were still on their way, those too that
/// a receiving end keeps. It takes memory for them. This project's own.
pub(crate) fn close_lines<R: Wait, P: Drop>(
    rt: &R,
    alloc: Global,
    all: Vec<NodeEnds<P>>,
) -> Result<Vec<P>, AllocError>
    requires wired { AreWiredAs (vec_len all) all.items }
    ensures { IfOk result (λ tokens. GivesAll all.items tokens.items) }
{
    let mut all = all;
    let mut tokens = Vec::new(alloc);
    for _ in 0..all.len() {
        let mine = all.remove(0);
        close_with_all(rt, mine, &mut all, &mut tokens)?;
    }
    Ok(tokens)
}
