ghost use Rattle.std.specs.Prelude.{◌≡◌, ◌↔◌, length, Ok, Err, IfOk, IfErr};
ghost use Rattle.sdc_base.specs.Patterns.{IsPattern};
ghost use Rattle.worlds.specs.ProtectFaults.{protect_fault, IsProtecting};
ghost use Rattle.worlds.specs.Protection.{protection};

use crate::faults::ProtectFault;
use crate::pattern::Pattern;
use crate::protection::check_protection;
use crate::world::World;
use sdc_base::{Cell, Hidden, Items, System};
use std::marker::Model;

/// A hidden set that is known to protect every primary cell to both sides, with the worlds that show it.
///
/// Contracts see it as the system, its cells, the hidden set and the worlds.
#[derive(Drop)]
pub struct Protected<'a> {
    system: &'a System,
    cells: &'a [Cell],
    hidden: Hidden,
    worlds: Items<World>,
}

impl<'a> Model for Protected<'a> {
    ghost use Rattle.worlds.specs.Protection.{Protection, protection, IsSoundProtection};

    ghost Value = { Protection };

    ghost view = { λ p. protection p.system.now p.cells.now p.hidden p.worlds };

    ghost invariant = { λ p. IsSoundProtection (protection p.system.now p.cells.now p.hidden p.worlds) };
}

impl<'a> Protected<'a> {
    /// A hidden set, with two worlds for each primary cell in ascending order, above and then below.
    ///
    /// There are a cell, a flag and a number of the scratch for each cell of the system; afterwards the scratch may
    /// hold any numbers. The fault is the first in this order: the first primary cell that is shown; the first fixed
    /// cell that is hidden; the count of the worlds; world by world, its first fault with the number of its line from
    /// 0, or else that it doesn't take its cell as far as its level. A line beyond the numbers of 32 bits has the
    /// greatest of them. It goes once through the cells and checks each world, and takes no memory.
    pub fn new(
        system: &'a System,
        cells: &'a [Cell],
        hidden: Hidden,
        worlds: Items<World>,
        scratch: &mut [i128],
    ) -> Result<Protected<'a>, ProtectFault>
        requires ground { IsPattern system.now cells.now hidden.flags }
        requires scratch { length scratch.old ≡ system.now.cells }
        ensures ok { IfOk result (λ p. protect_fault system.now cells.now hidden.flags worlds ≡ Ok tt) }
        ensures err { IfErr result (λ fault. protect_fault system.now cells.now hidden.flags worlds ≡ Err fault) }
        ensures value { IfOk result (λ p. p ≡ protection system.now cells.now hidden worlds) }
        ensures protecting { IfOk result (λ _. IsProtecting system.now cells.now hidden.flags) }
    {
        let pattern = Pattern {
            system,
            cells,
            hidden: &hidden,
        };
        check_protection(&pattern, worlds.as_slice(), scratch)?;
        Ok(Protected {
            system,
            cells,
            hidden,
            worlds,
        })
    }

    /// The hidden set.
    pub fn hidden(&self) -> &Hidden
        ensures hidden { result.now ≡ self.now.hidden }
        ensures protecting { IsProtecting self.now.system self.now.cells self.now.hidden.flags }
    {
        &self.hidden
    }

    /// The worlds, two for each primary cell in ascending order, above and then below.
    pub fn worlds(&self) -> &[World]
        ensures worlds { result.now ≡ self.now.worlds }
        ensures checked { protect_fault self.now.system self.now.cells self.now.hidden.flags self.now.worlds ≡ Ok tt }
    {
        self.worlds.as_slice()
    }
}
