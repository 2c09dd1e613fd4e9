// The record that answers a call for the grade.
ghost use Rattle.model.specs.PriceAnswers.{grade_given, grade_refused, grade_short};

use crate::{Answer, FigureAnswer, ShortAnswer};
use model::GradeAnswer;

impl Answer for GradeAnswer {
    ghost by_code = { grade_refused };

    fn refused_by(code: u32) -> GradeAnswer {
        GradeAnswer {
            code,
            grade: 0,
            shortage: 0,
            items: 0,
        }
    }
}

impl FigureAnswer for GradeAnswer {
    type Figure = u32;

    ghost by_figure = { grade_given };

    fn given(grade: u32) -> GradeAnswer {
        GradeAnswer {
            code: 0,
            grade,
            shortage: 0,
            items: 0,
        }
    }
}

impl ShortAnswer for GradeAnswer {
    ghost by_shortage = { grade_short };

    fn short(shortage: u32, items: u64) -> GradeAnswer {
        GradeAnswer {
            code: 9,
            grade: 0,
            shortage,
            items,
        }
    }
}
