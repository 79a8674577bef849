//! The pool: one run of a program.

ghost use Rattle.std.specs.Prelude.{◌≡◌, ◌<◌, length, true};
ghost use Rattle.tw_pool.specs.Actors.{HasPlace, events_of};

use crate::history::History;
use std::marker::Model;
use tw_pool_state::Parts;
use tw_types::{Actor, Input, Layout};
use tw_verify::Verified;

/// A run of a program: its state, and the list of its events. Its model has the program and the events; the state is the one that
/// the machine reaches by these events.
pub struct Pool<'a> {
    pub(crate) verified: &'a Verified,
    pub(crate) inputs: &'a [Input],
    pub(crate) layout: Layout,
    pub(crate) stopped: bool,
    pub(crate) history: History,
    pub(crate) parts: Parts<'a>,
}

impl<'a> Model for Pool<'a> {
    ghost use Rattle.tw_pool.specs.PoolView.{PoolView};

    ghost Value = { PoolView };

    ghost use Rattle.tw_pool.specs.Kept.{IsKept};

    ghost view = { λ p. record {
      program = p.verified.now;
      inputs = p.inputs.now;
      layout = p.layout;
      limit = p.history.limit;
      stopped = p.stopped;
      history = p.history.events;
    } };

    ghost invariant = { λ p. IsKept p.verified.now p.inputs.now p.layout p.history.limit p.history.events p.parts };
}

impl<'a> Pool<'a> {
    /// Stops the pool's run: no scheduling step makes an event any more.
    pub fn stop(&mut self)
        ensures { self.new ≡ record self.old { stopped = true } }
    {
        self.stopped = true;
    }

    /// Returns the events that the pool's scheduling steps made, in order.
    pub fn history(&self) -> &History
        ensures events { result.now.events ≡ self.now.history }
        ensures limit { result.now.limit ≡ self.now.limit }
    {
        &self.history
    }

    /// Returns the number of events of an actor in the pool.
    pub fn count(&self, actor: Actor) -> u64
        requires { HasPlace actor }
        ensures { result ≡ length (events_of actor self.now.history) }
    {
        self.history.count(actor)
    }

    /// Returns the verified program that the pool runs.
    pub fn program(&self) -> &'a Verified
        ensures { result.now ≡ self.now.program }
    {
        self.verified
    }

    /// Returns the layout of the pool's actors.
    pub fn layout(&self) -> Layout
        ensures { result ≡ self.now.layout }
    {
        self.layout
    }
}
