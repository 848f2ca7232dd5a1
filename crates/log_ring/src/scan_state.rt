//! The heads that a scan has found so far.

ghost use Rattle.std.proofs.Props.{props};
ghost use Rattle.std.specs.BTreeMap.{IsOrdered};
ghost use Rattle.std.specs.Ordering.{nat_cmp};

use crate::head::Head;
use crate::scan_fault::ScanFault;
use std::alloc::{AllocError, Global};
use std::collections::BTreeMap;

/// What a scan has found: the heads of which none that was found before covers a number, by their last numbers, and the
/// first line at which another one stands.
#[derive(Drop)]
pub struct ScanState {
    heads: BTreeMap<u64, Head>,
    duplicate: Option<u64>,
    ghost ordered: { IsOrdered nat_cmp heads } by { Prim.hlevel props },
}

impl ScanState {
    ghost use Rattle.log_ring.specs.Scanning.{AreAllHeads, AreKept, HoldsOneMore, MeetsKept, MissesKept, TakesHead};
    ghost use Rattle.log_ring.specs.declared.scan_fault.ScanFault.TheVariants.{Damaged, Device};
    ghost use Rattle.std.specs.Prelude.{◌≡◌, ◌≢◌, ℕ, [], true, false, Some, None, IfOk, IfErr, OnOk, IsErrOf};

    /// Nothing was found yet.
    pub fn new(alloc: Global) -> ScanState
        ensures heads { result.heads.entries ≡ [] }
        ensures duplicate { result.duplicate ≡ None }
    {
        ScanState {
            heads: BTreeMap::new(alloc),
            duplicate: None,
        }
    }

    // Whether a head that was taken in covers a number of this one. Of those whose last number isn't below its first one
    // the first decides, since they have no number in common.
    fn meets(&self, head: &Head) -> bool
        ensures meets { result ≡ true → MeetsKept self.now head.now }
        ensures misses { result ≡ false → AreKept self.now → MissesKept self.now head.now }
    {
        match self.heads.range(head.first()..).next() {
            Some((_, other)) => other.first() <= head.last && head.first() <= other.last,
            None => false,
        }
    }

    /// Takes in a head that stands at this line.
    pub fn take(&mut self, line: u64, head: Head) -> Result<(), AllocError>
        ensures takes { OnOk result (TakesHead line head self.old self.new) }
        ensures few { OnOk result (HoldsOneMore self.old self.new) }
    {
        if self.meets(&head) {
            self.duplicate = self.duplicate.or(Some(line));
        } else {
            self.heads.insert(head.last, head)?;
        }
        Ok(())
    }

    /// The heads in the order of their numbers, where no two cover one number.
    pub fn into_heads(self, alloc: Global) -> Result<Vec<Head>, ScanFault>
        ensures single { IfOk result (λ hs. AreAllHeads self hs.items) }
        ensures damaged { (line : ℕ) → IsErrOf result (Damaged line) → self.duplicate ≡ Some line }
        ensures fault { IfErr result (λ fault. fault ≢ Device) }
    {
        if let Some(line) = self.duplicate {
            return Err(ScanFault::Damaged { line });
        }
        Ok(self.heads.into_values().collect(alloc)?)
    }
}
