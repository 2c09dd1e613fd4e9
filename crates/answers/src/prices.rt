// The record that answers a call for the price.
ghost use Rattle.model.specs.PriceAnswers.{price_given, price_refused, price_short};

use crate::{Answer, FigureAnswer, ShortAnswer};
use model::PriceAnswer;

impl Answer for PriceAnswer {
    ghost by_code = { price_refused };

    fn refused_by(code: u32) -> PriceAnswer {
        PriceAnswer {
            code,
            shortage: 0,
            items: 0,
            cents: 0,
        }
    }
}

impl FigureAnswer for PriceAnswer {
    type Figure = u64;

    ghost by_figure = { price_given };

    fn given(cents: u64) -> PriceAnswer {
        PriceAnswer {
            code: 0,
            shortage: 0,
            items: 0,
            cents,
        }
    }
}

impl ShortAnswer for PriceAnswer {
    ghost by_shortage = { price_short };

    fn short(shortage: u32, items: u64) -> PriceAnswer {
        PriceAnswer {
            code: 9,
            shortage,
            items,
            cents: 0,
        }
    }
}
