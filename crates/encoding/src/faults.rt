//! What reading an archive refuses with. Each layer adds what it knows: a field's place, a plan's place and number.
ghost use Rattle.std.specs.Prelude.{◌≡◌};
ghost use Rattle.encoding.specs.declared.faults.PlanFault.TheVariants.{InRows};
ghost use Rattle.encoding.specs.Faults.{fault_check, fault_number, fault_place, fault_plan, field_number, plan_number};

use region::CheckRefusal;

/// What is wrong with a field by itself. The discriminant is the number that it goes by.
#[derive(Clone, Copy, Debug, PartialEq, Eq)]
pub enum FieldFault {
    /// No byte is left, or fewer than the field says that it has.
    NoFit = 12,
    /// A wrong tag, length or number of plans, or bytes that are left over.
    Malformed = 13,
    /// A title that is too long or has a byte that is no printable character.
    BadTitle = 15,
    NoSuchDate = 17,
}

impl FieldFault {
    pub fn number(self) -> u8
        ensures { result ≡ field_number self }
    {
        // In each such enum, since a cast asks for the enum itself.
        self as u8
    }
}

/// What is wrong in a plan: a field of it, by its place, or its rows.
#[derive(Clone, Copy, Debug, PartialEq, Eq)]
pub enum PlanFault {
    InField(usize, FieldFault),
    InRows(CheckRefusal),
}

impl PlanFault {
    pub fn number(self) -> u8
        ensures { result ≡ plan_number self }
    {
        match self {
            PlanFault::InField(_, fault) => fault.number(),
            PlanFault::InRows(refusal) => refusal.number(),
        }
    }
}

impl From<CheckRefusal> for PlanFault {
    ghost from_gives = { λ refusal fault. fault ≡ InRows refusal };

    fn from(refusal: CheckRefusal) -> PlanFault {
        PlanFault::InRows(refusal)
    }
}

/// What is wrong with an archive: a field outside the plans, by its place, or a plan, by the place of its field and its number from 1.
#[derive(Clone, Copy, Debug, PartialEq, Eq)]
pub enum ArchiveFault {
    AtField(usize, FieldFault),
    InPlan(usize, usize, PlanFault),
}

impl ArchiveFault {
    pub fn number(self) -> u8
        ensures { result ≡ fault_number self }
    {
        match self {
            ArchiveFault::AtField(_, fault) => fault.number(),
            ArchiveFault::InPlan(_, _, fault) => fault.number(),
        }
    }

    /// The byte place of the field at fault; of the plan's field where check refused the rows.
    pub fn place(self) -> usize
        ensures { result ≡ fault_place self }
    {
        match self {
            ArchiveFault::AtField(place, _) => place,
            ArchiveFault::InPlan(_, _, PlanFault::InField(place, _)) => place,
            ArchiveFault::InPlan(place, _, PlanFault::InRows(_)) => place,
        }
    }

    /// The plan's number from 1, or 0 outside the plans, as the rules name it.
    pub fn plan(self) -> usize
        ensures { result ≡ fault_plan self }
    {
        match self {
            ArchiveFault::AtField(_, _) => 0,
            ArchiveFault::InPlan(_, plan, _) => plan,
        }
    }

    /// What check found wrong with the plan's rows, if that is the fault.
    pub fn check(self) -> Option<CheckRefusal>
        ensures { result ≡ fault_check self }
    {
        match self {
            ArchiveFault::InPlan(_, _, PlanFault::InRows(refusal)) => Some(refusal),
            _ => None,
        }
    }
}
