/// Which rows of limits a table has had.
#[derive(Clone, Copy, Debug)]
pub struct LimitRows {
    pub slots: bool,
    pub sets: bool,
    pub pending: bool,
}

impl LimitRows {
    ghost use Rattle.std.specs.Prelude.{◌≡◌};
    ghost use Rattle.bilateral.specs.Reading.{nothing_given};

    pub fn nothing() -> LimitRows
        ensures { result ≡ nothing_given }
    {
        LimitRows {
            slots: false,
            sets: false,
            pending: false,
        }
    }
}
