// The records that answer a call that reads or writes a file.
ghost use Rattle.model.specs.FileAnswers.{read_refused, write_refused};

use crate::{Answer, FigureAnswer};
use model::{ReadAnswer, WriteAnswer};

impl Answer for ReadAnswer {
    ghost by_code = { read_refused };

    fn refused_by(code: u32) -> ReadAnswer {
        ReadAnswer { code, n: 0 }
    }
}

impl Answer for WriteAnswer {
    ghost by_code = { write_refused };

    fn refused_by(code: u32) -> WriteAnswer {
        WriteAnswer { code, bytes: 0 }
    }
}

impl FigureAnswer for ReadAnswer {
    type Figure = u64;

    ghost by_figure = { λ n. record { code = 0; n = n } };

    fn given(n: u64) -> ReadAnswer {
        ReadAnswer { code: 0, n }
    }
}

impl FigureAnswer for WriteAnswer {
    type Figure = u64;

    ghost by_figure = { λ k. record { code = 0; bytes = k } };

    fn given(bytes: u64) -> WriteAnswer {
        WriteAnswer { code: 0, bytes }
    }
}
