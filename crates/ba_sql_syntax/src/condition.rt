//! Conditions, read with a stack in the place of recursion.
ghost use Rattle.std.specs.Prelude.{◌≡◌, ◌++◌, List as Sequence, OnOk, reverse};
ghost use Rattle.ba_model.specs.Readings.{Sees};
ghost use Rattle.ba_sql_syntax.specs.Progress.{progress};
ghost use Rattle.ba_sql_syntax.specs.Reader.{can_close, close, condition_at, condition_goes, condition_step, finish, have_step, start, waiting, want_step};
ghost use Rattle.ba_sql_syntax.specs.Terminals.{Terminal as Word};

use crate::compare::test;
use crate::front::{begins_with, past};
use crate::word::{Key, Terminal};
use crate::written::Node;
use ba_grammar::{Syntax, begins_with_sign, past_sign};
use ba_lex::Sign;
use ba_model::{Failure, List};
use std::alloc::{AllocError, Global};

/// Which operators wait for their right sides before a bracket that is open, or at the start.
#[derive(Clone, Copy)]
pub struct Level {
    pub or: bool,
    pub and: bool,
}

#[derive(Clone, Copy)]
pub enum Turn {
    /// A bracket or a test comes next.
    Want(Level),
    /// An operator, a bracket that is closed or the end comes next; and whether an OR waits.
    Have(bool),
}

const FRESH: Level = Level {
    or: false,
    and: false,
};

/// What was read of a condition.
#[derive(Drop)]
struct Progress {
    /// The levels before the brackets that are open, the innermost last.
    stack: Vec<Level>,
    turn: Turn,
    nodes: List<Node>,
}

impl Progress {
    fn new(alloc: Global) -> Progress
        ensures { (ts : Sequence Word) → progress result ts ≡ start ts }
    {
        Progress {
            stack: Vec::new(alloc),
            turn: Turn::Want(FRESH),
            nodes: List::new(alloc),
        }
    }

    /// Puts an AND out, if it waits.
    fn put_and(&mut self, waits: bool) -> Result<(), AllocError>
        ensures nodes { OnOk result (self.new.nodes ≡ self.old.nodes ++ waiting waits Node.And) }
        ensures stack { self.new.stack ≡ self.old.stack }
        ensures turn { self.new.turn ≡ self.old.turn }
    {
        if waits {
            self.nodes.push(Node::And)?;
        }
        Ok(())
    }

    /// Puts an OR out, if it waits.
    fn put_or(&mut self, waits: bool) -> Result<(), AllocError>
        ensures nodes { OnOk result (self.new.nodes ≡ self.old.nodes ++ waiting waits Node.Or) }
        ensures stack { self.new.stack ≡ self.old.stack }
        ensures turn { self.new.turn ≡ self.old.turn }
    {
        if waits {
            self.nodes.push(Node::Or)?;
        }
        Ok(())
    }

    /// A bracket is closed whose nodes are complete.
    fn close<'a>(&mut self, rest: &'a [Terminal]) -> Result<&'a [Terminal], Failure<Syntax>>
        ensures { Sees (λ rest. progress self.new rest.now) result
            (close (reverse self.old.stack.items) self.old.nodes rest.now) }
    {
        match self.stack.pop() {
            Some(top) => {
                self.put_and(top.and)?;
                self.turn = Turn::Have(top.or);
                Ok(rest)
            }
            None => Err(Failure::Fault(Syntax)),
        }
    }

    #[tactic(auto, unfolding(crate::specs::Reader::want_step))]
    fn want<'a>(
        &mut self,
        alloc: Global,
        top: Level,
        words: &'a [Terminal],
    ) -> Result<&'a [Terminal], Failure<Syntax>>
        ensures { Sees (λ rest. progress self.new rest.now) result
            (want_step (reverse self.old.stack.items) top self.old.nodes words.now) }
    {
        if begins_with_sign(words, Sign::LeftParen) {
            let rest = past_sign(words, Sign::LeftParen)?;
            self.stack.push(top)?;
            self.turn = Turn::Want(FRESH);
            return Ok(rest);
        }
        let (test, rest) = test(alloc, words)?;
        self.nodes.push(Node::Test(test))?;
        self.put_and(top.and)?;
        self.turn = Turn::Have(top.or);
        Ok(rest)
    }

    #[tactic(auto, unfolding(crate::specs::Reader::have_step))]
    fn have<'a>(
        &mut self,
        or: bool,
        words: &'a [Terminal],
    ) -> Result<&'a [Terminal], Failure<Syntax>>
        ensures { Sees (λ rest. progress self.new rest.now) result
            (have_step (reverse self.old.stack.items) or self.old.nodes words.now) }
    {
        if begins_with(words, Key::And) {
            let rest = past(words, Key::And)?;
            self.turn = Turn::Want(Level { or, and: true });
            return Ok(rest);
        }
        if begins_with(words, Key::Or) {
            let rest = past(words, Key::Or)?;
            self.put_or(or)?;
            self.turn = Turn::Want(Level {
                or: true,
                and: false,
            });
            return Ok(rest);
        }
        let rest = past_sign(words, Sign::RightParen)?;
        self.put_or(or)?;
        self.close(rest)
    }

    /// Reads a bracket, a test or an operator.
    fn step<'a>(
        &mut self,
        alloc: Global,
        words: &'a [Terminal],
    ) -> Result<&'a [Terminal], Failure<Syntax>>
        ensures { Sees (λ rest. progress self.new rest.now) result
            (condition_step (progress self.old words.now)) }
    {
        match self.turn {
            Turn::Want(top) => self.want(alloc, top, words),
            Turn::Have(or) => self.have(or, words),
        }
    }

    fn can_close(&self, words: &[Terminal]) -> bool
        ensures { result ≡ can_close (reverse self.now.stack.items) words.now }
    {
        if self.stack.is_empty() {
            return false;
        }
        begins_with_sign(words, Sign::RightParen)
    }

    /// Whether the condition goes on with these words.
    fn goes_on(&self, words: &[Terminal]) -> bool
        ensures { result ≡ condition_goes (progress self.now words.now) }
    {
        match self.turn {
            Turn::Want(_) => true,
            Turn::Have(_) => {
                begins_with(words, Key::And) || begins_with(words, Key::Or) || self.can_close(words)
            }
        }
    }

    /// The nodes of a condition that ends before these words.
    fn finish<'a>(
        mut self,
        rest: &'a [Terminal],
    ) -> Result<(List<Node>, &'a [Terminal]), Failure<Syntax>>
        ensures { Sees (λ x. (x.0, x.1.now)) result (finish (progress self rest.now)) }
    {
        if !self.stack.is_empty() {
            return Err(Failure::Fault(Syntax));
        }
        match self.turn {
            Turn::Have(or) => {
                self.put_or(or)?;
                Ok((self.nodes, rest))
            }
            Turn::Want(_) => Err(Failure::Fault(Syntax)),
        }
    }
}

/// A condition in postfix order: AND binds stronger than OR, and both from the left.
#[tactic(auto, unfolding(crate::specs::Reader::condition_at))]
pub fn condition(
    alloc: Global,
    words: &[Terminal],
) -> Result<(List<Node>, &[Terminal]), Failure<Syntax>>
    ensures { Sees (λ x. (x.0, x.1.now)) result (condition_at words.now) }
{
    let mut progress = Progress::new(alloc);
    let mut rest = words;
    for _ in 0..words.len() {
        if !progress.goes_on(rest) {
            return progress.finish(rest);
        }
        rest = progress.step(alloc, rest)?;
    }
    progress.finish(rest)
}
