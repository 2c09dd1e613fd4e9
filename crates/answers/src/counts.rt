// The records that answer a call for the count and for a plan's number.
ghost use Rattle.model.specs.CountAnswers.{count_refused};
ghost use Rattle.model.specs.NumberAnswers.{number_given, number_refused};

use crate::{Answer, FigureAnswer};
use model::{CountAnswer, NumberAnswer};

impl Answer for CountAnswer {
    ghost by_code = { count_refused };

    fn refused_by(code: u32) -> CountAnswer {
        CountAnswer { code, count: 0 }
    }
}

impl Answer for NumberAnswer {
    ghost by_code = { number_refused };

    fn refused_by(code: u32) -> NumberAnswer {
        NumberAnswer { code, number: 0 }
    }
}

impl FigureAnswer for CountAnswer {
    type Figure = u64;

    ghost by_figure = { λ x. record { code = 0; count = x } };

    fn given(count: u64) -> CountAnswer {
        CountAnswer { code: 0, count }
    }
}

impl FigureAnswer for NumberAnswer {
    type Figure = u64;

    ghost by_figure = { number_given };

    fn given(number: u64) -> NumberAnswer {
        NumberAnswer { code: 0, number }
    }
}
