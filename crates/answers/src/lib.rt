// The records that answer the calls: refused by a test, short of a plan, or given what was asked for. 9 and 11 stand in those alone that bring
// figures with them: 9 once for each record, 11 once.
#![tactic(auto)]

ghost use Rattle.std.specs.Prelude.{◌≡◌, ℕ};
ghost use Rattle.model.specs.Refusal.{number};
ghost use Rattle.model.specs.PlanAnswers.{given, refused, short, over_cap};

use model::{Plan, PlanAnswer, Refusal};

mod counts;
mod file_records;
mod grades;
mod prices;

// The record of a call's answer.
pub trait Answer: Sized {
    // by the number of a refusal
    ghost by_code: { ℕ → Self };

    // Refused by a number that stands alone: zeros besides, and the blank plan where there is one.
    fn refused_by(code: u32) -> Self
        ensures { result ≡ by_code code };

    // Refused by a test.
    fn refused(refusal: Refusal) -> Self
        ensures { result ≡ by_code (number refusal) }
    {
        Self::refused_by(refusal.number())
    }
}

// One that answers a figure.
pub trait FigureAnswer: Answer {
    type Figure;

    ghost by_figure: { Self.Figure → Self };

    // Success.
    fn given(figure: Self::Figure) -> Self
        ensures { result ≡ by_figure figure };
}

// One of a call for which a plan must exist.
pub trait ShortAnswer: Answer {
    // by the shortage and the item set
    ghost by_shortage: { ℕ → ℕ → Self };

    // 9: no complete plan exists.
    fn short(shortage: u32, items: u64) -> Self
        ensures { result ≡ by_shortage shortage items };
}

impl Answer for PlanAnswer {
    ghost by_code = { refused };

    fn refused_by(code: u32) -> PlanAnswer {
        PlanAnswer {
            code,
            shortage: 0,
            items: 0,
            callouts: 0,
            plan: Plan::BLANK,
        }
    }
}

impl ShortAnswer for PlanAnswer {
    ghost by_shortage = { short };

    fn short(shortage: u32, items: u64) -> PlanAnswer {
        PlanAnswer {
            code: 9,
            shortage,
            items,
            callouts: 0,
            plan: Plan::BLANK,
        }
    }
}

// The other two are of this record alone, so they need no trait: its success is two things and no one figure.

// Success, with a plan and the number of its callouts, or 0 where that is not asked for.
pub fn given(slots: [u8; 64], callouts: u32) -> PlanAnswer
    ensures { result ≡ given slots callouts }
{
    PlanAnswer {
        code: 0,
        shortage: 0,
        items: 0,
        callouts,
        plan: Plan { slots },
    }
}

// 11: the fewest number exceeds the cap.
pub fn over_cap(number: u32) -> PlanAnswer
    ensures { result ≡ over_cap number }
{
    PlanAnswer {
        code: 11,
        shortage: 0,
        items: 0,
        callouts: number,
        plan: Plan::BLANK,
    }
}
