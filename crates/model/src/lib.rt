// The records that the public calls are lent and answer, in the field order that C programs are linked against (include/rota.h); the editions
// of the file, and what a test refuses with. What they mean is in specs/.
#![tactic(auto)]

ghost use Rattle.std.specs.Prelude.{◌≡◌};
ghost use Rattle.model.specs.Refusal.{number};

// A complete plan, byte i being item i's slot; or the blank plan.
#[repr(C)]
#[derive(Clone, Copy)]
pub struct Plan {
    pub slots: [u8; 64],
}

impl Plan {
    pub const BLANK: Plan = Plan { slots: [255; 64] };
}

// The answer of a call that gives a plan.
#[repr(C)]
#[derive(Clone, Copy)]
pub struct PlanAnswer {
    pub code: u32,
    pub shortage: u32,
    pub items: u64,
    pub callouts: u32,
    pub plan: Plan,
}

// The lister of docs/RULES.md.
#[repr(C)]
#[derive(Clone, Copy)]
pub struct Lister {
    pub started: bool,
    pub plan: Plan,
}

#[repr(C)]
#[derive(Clone, Copy)]
pub struct CountAnswer {
    pub code: u32,
    pub count: u64,
}

#[repr(C)]
#[derive(Clone, Copy)]
pub struct NumberAnswer {
    pub code: u32,
    pub number: u64,
}

#[repr(C)]
#[derive(Clone, Copy)]
pub struct GradeAnswer {
    pub code: u32,
    pub grade: u32,
    pub shortage: u32,
    pub items: u64,
}

#[repr(C)]
#[derive(Clone, Copy)]
pub struct PriceAnswer {
    pub code: u32,
    pub shortage: u32,
    pub items: u64,
    pub cents: u64,
}

#[repr(C)]
#[derive(Clone, Copy)]
pub struct ReadAnswer {
    pub code: u32,
    pub n: u64,
}

#[repr(C)]
#[derive(Clone, Copy)]
pub struct WriteAnswer {
    pub code: u32,
    pub bytes: u64,
}

// The editions of the rota file. Calls that name none mean the first.
#[derive(Clone, Copy)]
pub enum Edition {
    One,
}

// What a test refuses with by its number alone: the refusals of docs/RULES.md but 9 and 11, which bring figures.
#[derive(Clone, Copy)]
pub enum Refusal {
    BadN,
    BadTableLength,
    SlotOutside,
    CalloutNotOpen,
    TooManyToCount,
    TallyTooShort,
    BadFleet,
    NotAPlan,
    NoFurtherPlan,
    BadFileLength,
    BadCheck,
    BadLayout,
    OutputTooShort,
    NoSuchPlan,
}

impl Refusal {
    // Its number.
    #[tactic(auto, unfolding(crate::specs::Refusal::number))]
    pub fn number(self) -> u32
        ensures { result ≡ number self }
    {
        match self {
            Refusal::BadN => 1,
            Refusal::BadTableLength => 2,
            Refusal::SlotOutside => 3,
            Refusal::CalloutNotOpen => 4,
            Refusal::TooManyToCount => 5,
            Refusal::TallyTooShort => 6,
            Refusal::BadFleet => 7,
            Refusal::NotAPlan => 8,
            Refusal::NoFurtherPlan => 10,
            Refusal::BadFileLength => 12,
            Refusal::BadCheck => 13,
            Refusal::BadLayout => 14,
            Refusal::OutputTooShort => 15,
            Refusal::NoSuchPlan => 16,
        }
    }
}
