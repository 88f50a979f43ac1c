ghost use Rattle.std.specs.Prelude.{◌≡◌, ◌<◌, ◌≤◌, ◌+◌, ◌^◌, [], ◌∷◌, IfOk, length, replicate, pos, true};
ghost use Rattle.jn_machine.specs.Acts.{frame_of};
ghost use Rattle.jn_machine.specs.Held.{Held};
ghost use Rattle.jn_machine.specs.Sizes.{taken, drop_args, under, waits_by, HasUnder};

use crate::frame::{Frame, make_frame};
use crate::locals::Locals;
use crate::operands::Operands;
use std::alloc::{AllocError, Global};
use std::marker::Model;
use std::mem;

/// Frames that were made before: those that wait, the latest first, and behind them those that are free.
#[derive(Drop)]
pub struct Frames {
    pool: Vec<Frame>,
    live: usize,
    wide: usize,
    high: usize,
}

impl Model for Frames {
    ghost use Rattle.std.specs.Prelude.{◌≤◌, vec_len, reverse, take};
    ghost use Rattle.jn_machine.specs.Sizes.{Sizes, EachSized};

    ghost Value = { Sizes };

    ghost view = { λ s. record { limit = vec_len s.pool; wide = s.wide; high = s.high; waiting = reverse (take s.live s.pool.items) } };

    ghost invariant = { λ s. (s.live ≤ vec_len s.pool) × EachSized s.wide s.high s.pool.items };
}

// Moves the latest operands into the variables of the next frame from number 1 on. The others are zeros.
fn move_args(now: &mut Operands, next: &mut Locals, args: usize, locals: usize)
    requires has { args ≤ length now.old.words }
    requires wide { args + locals + 1 ≤ next.old.limit }
    requires short { args + locals + 1 < 2 ^ 64 }
    ensures left { now.new.words ≡ drop_args args now.old.words }
    ensures vars { next.new.words ≡ pos 0 ∷ taken args now.old.words (replicate locals (pos 0)) }
    ensures limit { now.new.limit ≡ now.old.limit }
    ensures next_limit { next.new.limit ≡ next.old.limit }
{
    next.fill(args + locals + 1);
    let mut k = args;
    while k > 0 {
        let z = now.take();
        next.set(k, z);
        k -= 1;
    }
}

// Drops the receiver below the arguments, or puts it back where the result isn't kept.
fn settle(f: &mut Frame, z: i64)
    requires { HasUnder f.old.keeps f.old.vals }
    ensures { f.new ≡ record f.old { vals = record { limit = f.old.vals.limit; words = under f.old.keeps z f.old.vals.words } } }
{
    if f.keeps {
        f.vals.take();
    } else {
        f.vals.put(z);
    }
}

impl Frames {
    /// Takes all the memory that calls ever use.
    #[tactic(auto, using(crate::proofs::Pool::sized_more))]
    pub fn make(alloc: Global, limit: usize, wide: usize, high: usize) -> Result<Frames, AllocError>
        ensures { IfOk result (λ s. s ≡ record { limit = limit; wide = wide; high = high; waiting = [] }) }
    {
        let mut pool = Vec::with_capacity(alloc, limit)?;
        for _ in 0..limit {
            pool.push(make_frame(alloc, wide, high)?)?;
        }
        Ok(Frames {
            pool,
            live: 0,
            wide,
            high,
        })
    }

    /// The frame at work waits, and the next one is that of a code that begins with this receiver and the latest operands.
    pub fn enter(&mut self, now: &mut Frame, code: usize, z: i64, args: usize, locals: usize)
        requires room { length self.old.waiting < self.old.limit }
        requires has { args ≤ length now.old.vals.words }
        requires under { HasUnder now.old.keeps (record { limit = now.old.vals.limit; words = drop_args args now.old.vals.words }) }
        requires fits { args + locals + 1 ≤ self.old.wide }
        requires short { args + locals + 1 < 2 ^ 64 }
        requires wide { now.old.vars.limit ≡ self.old.wide }
        requires high { now.old.vals.limit ≡ self.old.high }
        ensures waiting { self.new.waiting ≡ waits_by args z now.old ∷ self.old.waiting }
        ensures begins { frame_of now.new ≡ record { code = code; place = 0; vars = z ∷ taken args now.old.vals.words (replicate locals (pos 0)); vals = []; keeps = true } }
        ensures limit { self.new.limit ≡ self.old.limit }
        ensures same_wide { self.new.wide ≡ self.old.wide }
        ensures same_high { self.new.high ≡ self.old.high }
        ensures now_wide { now.new.vars.limit ≡ self.old.wide }
        ensures now_high { now.new.vals.limit ≡ self.old.high }
    {
        let next = &mut self.pool[self.live];
        next.code = code;
        next.place = 0;
        next.keeps = true;
        next.vals.clear();
        move_args(&mut now.vals, &mut next.vars, args, locals);
        next.vars.set(0, z);
        settle(now, z);
        mem::swap(now, next);
        self.live += 1;
    }

    /// The latest that waits is at work again.
    pub fn leave(&mut self, now: &mut Frame)
        requires has { 0 < length self.old.waiting }
        requires wide { now.old.vars.limit ≡ self.old.wide }
        requires high { now.old.vals.limit ≡ self.old.high }
        ensures waiting { self.old.waiting ≡ now.new ∷ self.new.waiting }
        ensures limit { self.new.limit ≡ self.old.limit }
        ensures same_wide { self.new.wide ≡ self.old.wide }
        ensures same_high { self.new.high ≡ self.old.high }
        ensures now_wide { now.new.vars.limit ≡ self.old.wide }
        ensures now_high { now.new.vals.limit ≡ self.old.high }
    {
        self.live -= 1;
        mem::swap(now, &mut self.pool[self.live]);
    }

    pub fn waiting(&self) -> usize
        ensures { result ≡ length self.now.waiting }
    {
        self.live
    }

    pub fn limit(&self) -> usize
        ensures limit { result ≡ self.now.limit }
        ensures most { length self.now.waiting ≤ result }
    {
        self.pool.len()
    }

    pub fn high(&self) -> usize
        ensures { result ≡ self.now.high }
    {
        self.high
    }
}
