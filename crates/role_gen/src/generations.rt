ghost use Rattle.std.specs.Prelude.{◌≡◌, ◌+◌, ◌<◌, ◌↔◌, IsTrue, IfOk, IfSome, None, length};
ghost use Rattle.ptp_base.specs.declared.limits.TheConstants.{GENERATION_MAX};
ghost use Rattle.ptp_profile.specs.Roles.Edges.{are_same_edges, is_same_edge};
ghost use Rattle.role_gen.specs.Generation.{Generation, no_generation};

use ptp_base::NoMemory;
use ptp_profile::Edge;
use std::alloc::Global;
use std::marker::Model;

/// The same edge, its parent included.
fn is_same(old: &Option<Edge>, new: &Option<Edge>) -> bool
    ensures { result ≡ is_same_edge old.now new.now }
{
    old == new
}

/// Each clock has the same edge in both, its parent included.
fn are_same(old: &[Option<Edge>], new: &[Option<Edge>]) -> bool
    requires { length old.now ≡ length new.now }
    ensures { result ≡ are_same_edges old.now new.now }
{
    for (clock, before) in old.iter().enumerate() {
        if !is_same(before, &new[clock]) {
            return false;
        }
    }
    true
}

/// The generations of a history: how often the edges of the clocks have changed, and the edges since
/// the last change.
#[derive(Drop)]
pub struct Generations {
    gener: u32,
    edges: Vec<Option<Edge>>,
}

impl Model for Generations {
    ghost use Rattle.role_gen.specs.Generation.{Generation};

    ghost Value = { Generation };

    ghost view = { λ g. record { gener = g.gener; edges = g.edges.items } };
}

impl Generations {
    /// Before the first generation nothing drives any of so many clocks.
    pub fn new(alloc: Global, clocks: u8) -> Result<Generations, NoMemory>
        ensures { IfOk result (λ generations. generations ≡ no_generation clocks) }
    {
        Ok(Generations {
            gener: 0,
            edges: vec![in alloc; None; clocks as usize]?,
        })
    }

    /// The number of the generation, from 1, or 0 before the first.
    pub fn generation(&self) -> u32
        ensures { result ≡ self.now.gener }
    {
        self.gener
    }

    /// Lends what drives each clock.
    pub fn edges(&self) -> &[Option<Edge>]
        ensures { result.now ≡ self.now.edges }
    {
        self.edges.as_slice()
    }

    /// Begins the next generation where an edge differs, its parent included, and answers its number.
    /// None, and nothing changes, exactly where all edges are the same. `new` has one place for each
    /// clock, and the generation is below `GENERATION_MAX`. Does not allocate.
    pub fn advance(&mut self, new: &[Option<Edge>]) -> Option<u32>
        requires same_length { length new.now ≡ length self.old.edges }
        requires below { self.old.gener < GENERATION_MAX }
        ensures none { (result ≡ None) ↔ IsTrue (are_same_edges self.old.edges new.now) }
        ensures same { result ≡ None → self.new ≡ self.old }
        ensures next { IfSome result (λ gener. gener ≡ self.old.gener + 1) }
        ensures begun { IfSome result
            (λ gener. self.new ≡ record { gener = gener; edges = new.now }) }
    {
        if are_same(self.edges.as_slice(), new) {
            return None;
        }
        self.gener += 1;
        self.edges.as_mut_slice().copy_from_slice(new);
        Some(self.gener)
    }
}
