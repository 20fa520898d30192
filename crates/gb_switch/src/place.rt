//! Ends in the order in which queues are settled.

ghost use Rattle.std.proofs.Common.{ap};
ghost use Rattle.std.specs.Prelude.{◌≡◌, Some, refl};
ghost use Rattle.std.specs.Cmp as order;
ghost use Rattle.std.specs.Hash as fed;
ghost use Rattle.std.specs.Ordering.{eq_by_cmp};
ghost use Rattle.gb_switch.specs.Places.{code_of, end_cmp, end_total, same_code};

use gb_base::End;
use std::cmp::Ordering;
use std::hash::{Hash, Hasher};
use std::marker::Model;

/// The number of CPort 0 at interface 0, behind those of the application processor.
const MODULES: u32 = 65_537;

/// How many numbers an interface has, one for each CPort.
const CPORTS: u32 = 65_536;

/// An end, in the order in which queues are settled: the supervisory controller, then the CPorts of
/// the application processor by number, then those of modules by interface and CPort. A contract
/// sees the end.
#[derive(Clone, Copy)]
pub struct Place {
    /// 0 for the supervisory controller, 1 + A for CPort A of the application processor, and
    /// 65,537 + 65,536 I + C for CPort C at interface I, so that places are compared in one step.
    code: u32,
}

impl Model for Place {
    ghost use Rattle.gb_base.specs.declared.end.End.{End};

    ghost Value = { End };

    ghost use Rattle.gb_switch.specs.Places.{IsCode, code_of, end_of};

    ghost view = { λ p. end_of p.code };

    ghost invariant = { λ p. IsCode p.code };

    ghost inverse = { λ at. record { code = code_of at } };

    ghost inverse_ok = { λ p h i. record { code = h.own i } };
}

impl Place {
    /// The place of an end.
    pub fn of(at: End) -> Place
        ensures { result ≡ at }
    {
        let code = match at {
            End::Svc => 0,
            End::Ap(cport) => 1 + u32::from(cport),
            End::Module { intf, cport } => MODULES + u32::from(intf) * CPORTS + u32::from(cport),
        };
        Place { code }
    }

    /// The end that has the place.
    pub fn end(self) -> End
        ensures { result ≡ self }
    {
        if self.code == 0 {
            return End::Svc;
        }
        if self.code < MODULES {
            return End::Ap((self.code - 1) as u16);
        }
        let number = self.code - MODULES;
        End::Module {
            intf: (number / CPORTS) as u8,
            cport: (number % CPORTS) as u16,
        }
    }
}

impl PartialEq for Place {
    ghost eq = { eq_by_cmp end_cmp };

    ghost laws = { order.partial_equiv_from_equiv (order.eq_by_cmp_equiv end_total) };

    #[inline]
    fn eq(&self, other: &Place) -> bool {
        self.code == other.code
    }
}

impl Eq for Place {
    ghost laws = { order.eq_by_cmp_equiv end_total };
}

impl Hash for Place {
    ghost hash_input = { λ at. fed.u32 (code_of at) };

    ghost respects_eq = { λ a b e. ap fed.u32 (same_code a b e) };

    #[inline]
    fn hash<H: Hasher>(&self, state: &mut H) {
        self.code.hash(state);
    }
}

impl PartialOrd for Place {
    ghost partial_cmp = { λ a b. Some (end_cmp a b) };

    ghost laws = { order.partial_order_from_total end_total };

    fn partial_cmp(&self, other: &Place) -> Option<Ordering> {
        Some(self.cmp(other))
    }
}

impl Ord for Place {
    ghost cmp = { end_cmp };

    ghost total = { end_total };

    ghost matches_partial_cmp = { λ a b. refl };

    ghost matches_eq = { λ a b. refl };

    #[inline]
    fn cmp(&self, other: &Place) -> Ordering {
        self.code.cmp(&other.code)
    }
}
