// Places and trials, on what is known of the paths; no function here sees an image. `place_fits` is the rule for checkpoints, `step` works
// out one assignment, and `run_path` is the loop over the masks of one path: the one place where `step` is called, as `step` is the one place
// where `evaluate` is. What they mean is said in definition's specs/Place.antt, and in specs/ here how facts and words stand for a path and how a
// path's loop ends. The laws stand in proofs/: for the test of a place in Weighing.antt, for one trial in Trying.antt, for the loop in Legs.antt.
// The proof of a function stands in proofs/NAME/; where there is none the checker finds it.
#![tactic(auto)]

ghost use Rattle.std.specs.Prelude.{◌≡◌, List, ℕ, ◌+◌, ◌^◌, ◌≤◌, ◌<◌, length, take, drop, IfSome};
ghost use Rattle.definition.specs.Accepted.{Compiled};
ghost use Rattle.definition.specs.Verdict.{outcome, found_verdict, over_verdict};
ghost use Rattle.definition.specs.Verdict.{atoms as atoms_in, bound as bound_of};
ghost use Rattle.definition.specs.Place.{assignments, spent, room, behind, fits, after, trial};
ghost use Rattle.trials.specs.Facts.{compiled_by, counts_of, counts_in, Within};
ghost use Rattle.trials.specs.Weights.{tried_on, weight_of};
ghost use Rattle.trials.specs.Legs.{Ready, Stretch, leg_of};

use definition::{Bounds, Location, Outcome, Place, Reason, Verdict};
use std::ops::ControlFlow;

// What is known of a path: how many words its formula has, its Sig and Free atoms, whether a checksig stands on it, its return's location.
#[derive(Clone, Copy)]
pub struct Facts {
    pub words: usize,
    pub sigs: usize,
    pub frees: usize,
    pub signed: bool,
    pub location: Location,
}

// How many atoms a path has: Free ones, which security tries, and of both kinds, which liveness tries.
#[derive(Clone, Copy, Debug, PartialEq, Eq)]
pub struct AtomCounts {
    pub free: u32,
    pub all: u32,
}

// How the loop over one path ends: with the end; with its budget used up, at a place on the path; or past the path, with so much budget left.
#[derive(Clone, Copy)]
pub enum Leg {
    Ended(Outcome),
    Open(Place),
    On(Place, u64),
}

// ---- by the phase

impl Facts {
    // How many atoms the path has.
    pub fn counts(self) -> AtomCounts
        requires { Within self }
        ensures { (code : List ℕ) → result ≡ counts_of (compiled_by code self) }
    {
        AtomCounts {
            free: self.frees as u32,
            all: (self.sigs + self.frees) as u32,
        }
    }
}

impl AtomCounts {
    // What stands in a table before a path's own.
    pub const NONE: AtomCounts = AtomCounts { free: 0, all: 0 };

    // How many of them a phase tries.
    #[tactic(auto, unfolding(definition::specs::Verdict::atoms))]
    fn tried(self, phase: u8) -> u32
        ensures { (p : Compiled) → self ≡ counts_of p → result ≡ atoms_in phase p }
    {
        if phase == 0 { self.free } else { self.all }
    }

    // How many assignments a phase has on such a path, if it is not over its bound.
    #[tactic(auto, using(crate::proofs::Weighing::bound_le, crate::proofs::Weighing::limit_le))]
    pub fn assignments(self, b: Bounds, phase: u8) -> Option<u32>
        requires { (b.free ≤ 26) × (b.all ≤ 26) }
        ensures value { (p : Compiled) → self ≡ counts_of p → result ≡ tried_on b phase p }
        ensures few { IfSome result (λ n. n ≤ 67108864) }
    {
        let atoms = self.tried(phase);
        if bound_of(b, phase) < atoms {
            return None;
        }
        Some(limit_of(atoms))
    }
}

// How many atoms a phase tries on a path.
pub fn atoms_in(facts: Facts, phase: u8) -> u32
    requires { Within facts }
    ensures { (code : List ℕ) → result ≡ atoms_in phase (compiled_by code facts) }
{
    facts.counts().tried(phase)
}

// How many atoms a phase takes on.
#[tactic(auto, unfolding(definition::specs::Verdict::bound))]
pub fn bound_of(b: Bounds, phase: u8) -> u32
    ensures { result ≡ bound_of b phase }
{
    if phase == 0 { b.free } else { b.all }
}

// How many assignments so many atoms have.
pub fn limit_of(atoms: u32) -> u32
    requires { atoms ≤ 26 }
    ensures { result ≡ 2 ^ atoms }
{
    1 << atoms
}

// ---- whether a place fits

// What the test of a place knows of paths: how many atoms each has, and the bounds. There are at most 128 of 2^26 assignments each.
#[derive(Clone, Copy)]
struct Paths<'a> {
    atoms: &'a [AtomCounts],
    bounds: Bounds,
    ghost few: { length atoms.now ≤ 128 },
    ghost small: { (bounds.free ≤ 26) × (bounds.all ≤ 26) },
}

impl Paths<'_> {
    // How many assignments they have together in a phase, if none of them is over its bound.
    fn weigh(&self, phase: u8) -> Option<u64>
        ensures value { (ps : List Compiled) → self.now.atoms.now ≡ counts_in ps → result ≡ weight_of self.now.bounds phase ps }
        ensures few { IfSome result (λ n. n ≤ 8589934592) }
    {
        let mut sum: u64 = 0;
        for path in self.atoms {
            sum += path.assignments(self.bounds, phase)? as u64;
        }
        Some(sum)
    }

    // How many masks a place on path i may have.
    fn room_at(&self, phase: u8, i: usize) -> u32
        ensures { (ps : List Compiled) → self.now.atoms.now ≡ counts_in ps → result ≡ room self.now.bounds phase (drop i ps) }
    {
        match self.atoms.get(i) {
            Some(path) => path.assignments(self.bounds, phase).unwrap_or(1),
            None => 1,
        }
    }

    // Whether the paths before the place's own are behind it, its mask is one of its path's, and its count is what was tried before plus theirs.
    #[tactic(auto, using(crate::proofs::Weighing::behinds))]
    fn fits_behind(&self, before: u64, p: Place) -> bool
        requires { (before ≤ 8589934592) × (p.path ≤ length self.now.atoms.now) }
        ensures { (ps : List Compiled) → self.now.atoms.now ≡ counts_in ps → before + assignments self.now.bounds p.phase (take p.path ps) ≡ spent self.now.bounds p.phase p.path ps → result ≡ behind self.now.bounds p.phase ps p }
    {
        let i = p.path as usize;
        let left_behind = Paths {
            atoms: &self.atoms[0..i],
            bounds: self.bounds,
        };
        match left_behind.weigh(p.phase) {
            Some(sum) => p.mask < self.room_at(p.phase, i)
                && p.count == before + sum + p.mask as u64,
            None => false,
        }
    }
}

// Whether a run that met no satisfying assignment could stand there, on paths with so many atoms each.
#[tactic(auto, using(crate::proofs::Weighing::fitting))]
pub fn place_fits(paths: &[AtomCounts], b: Bounds, p: Place) -> bool
    requires { (length paths.now ≤ 128) × (b.free ≤ 26) × (b.all ≤ 26) }
    ensures { (ps : List Compiled) → paths.now ≡ counts_in ps → result ≡ fits b ps p }
{
    let i = p.path as usize;
    let all = Paths {
        atoms: paths,
        bounds: b,
    };
    match p.phase {
        0 => i < paths.len() && all.fits_behind(0, p),
        1 => match all.weigh(0) {
            Some(before) => i <= paths.len() && all.fits_behind(before, p),
            None => false,
        },
        _ => false,
    }
}

// ---- one trial

// An end at that place.
pub fn outcome_of(verdict: Verdict, place: Place, total: u64) -> Outcome
    ensures { result ≡ outcome verdict place total }
{
    Outcome {
        verdict,
        total,
        place,
    }
}

// The verdict at a path over its bound.
#[tactic(auto, unfolding(definition::specs::Verdict::over_verdict))]
pub fn over_verdict(facts: Facts, p: Place) -> Verdict
    ensures { (code : List ℕ) → result ≡ over_verdict p.phase p.path (compiled_by code facts) }
{
    let location = facts.location;
    if p.phase == 0 {
        return Verdict::NoSigRequired {
            reason: Reason::OverBound,
            path: p.path,
            location,
            mask: 0,
        };
    }
    Verdict::Ok
}

// The verdict where the place's mask satisfies its path.
#[tactic(auto, using(crate::proofs::Trying::chosen, crate::proofs::Trying::other), unfolding(definition::specs::Verdict::found_verdict))]
fn found_verdict(facts: Facts, p: Place) -> Verdict
    ensures { (code : List ℕ) → result ≡ found_verdict p.phase p.path (compiled_by code facts) p.mask }
{
    let location = facts.location;
    if p.phase != 0 {
        return Verdict::Ok;
    }
    if facts.signed {
        return Verdict::UselessSig {
            path: p.path,
            location,
            mask: p.mask,
        };
    }
    Verdict::NoSigRequired {
        reason: Reason::Satisfied,
        path: p.path,
        location,
        mask: p.mask,
    }
}

// The place after an assignment that did not satisfy, its path having `limit` of them, and the contract n paths.
#[tactic(auto, using(crate::proofs::Trying::after_mask, crate::proofs::Trying::after_last, crate::proofs::Trying::after_path))]
fn next_place(limit: u32, n: usize, p: Place) -> Place
    requires { (p.mask < limit) × (p.count + 1 < 2 ^ 64) × (p.path < n) × (n ≤ 128) }
    ensures { (h : Compiled) (rest : List Compiled) → limit ≡ 2 ^ atoms_in p.phase h → n ≡ p.path + 1 + length rest → result ≡ after h rest p }
{
    let count = p.count + 1;
    if p.mask + 1 < limit {
        return Place {
            mask: p.mask + 1,
            count,
            ..p
        };
    }
    if p.phase == 0 && n <= p.path as usize + 1 {
        return Place {
            phase: 1,
            path: 0,
            mask: 0,
            count,
        };
    }
    Place {
        path: p.path + 1,
        mask: 0,
        count,
        ..p
    }
}

// One assignment: the end, or the next place. There is no loop here.
#[tactic(auto, using(crate::proofs::Trying::chosen, crate::proofs::Trying::other), unfolding(definition::specs::Place::trial))]
fn step(code: &[u32], facts: Facts, limit: u32, n: usize, p: Place) -> ControlFlow<Outcome, Place>
    requires { Ready code.now facts limit n p }
    ensures { (rest : List Compiled) → n ≡ p.path + 1 + length rest → result ≡ trial (compiled_by code.now facts) rest p }
{
    if evaluation::evaluate(code, p.phase, facts.sigs, p.mask) {
        return ControlFlow::Break(Outcome {
            verdict: found_verdict(facts, p),
            total: p.count + 1,
            place: p,
        });
    }
    ControlFlow::Continue(next_place(limit, n, p))
}

// ---- the loop over one path

// At most `budget` assignments of the place's own path.
pub fn run_path(code: &[u32], facts: Facts, limit: u32, n: usize, start: Place, budget: u64) -> Leg
    requires { Stretch code.now facts limit n start }
    ensures { (rest : List Compiled) → n ≡ start.path + 1 + length rest → result ≡ leg_of (compiled_by code.now facts) rest budget start }
{
    // Counted upwards: `(0..budget).rev()` takes a twentieth longer for each assignment.
    let mut p = start;
    for tried in 0..budget {
        match step(code, facts, limit, n, p) {
            ControlFlow::Break(o) => return Leg::Ended(o),
            ControlFlow::Continue(q) if q.mask == 0 => return Leg::On(q, budget - tried - 1),
            ControlFlow::Continue(q) => p = q,
        }
    }
    Leg::Open(p)
}
