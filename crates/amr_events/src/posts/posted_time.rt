//! A time of a posted alert, which the post may leave out.
ghost use Rattle.std.specs.Prelude.{◌≡◌, ◌<◌, IfSome};
ghost use Rattle.amr_time.specs.Time.{before_year_10000};
ghost use Rattle.amr_events.specs.Posts.Times.{posted_time};

use amr_time::Moment;
use std::marker::Model;

/// The number that stands for no moment: the greatest of 96 bits.
const NONE: u128 = 79_228_162_514_264_337_593_543_950_335;

/// How many numbers a part of a posted time can be.
const PART: u128 = 4_294_967_296;

/// A moment, or none. It takes three quarters of the memory of an `Option<Moment>`, and a script can
/// hold millions. Contracts see the moment.
#[derive(Drop)]
pub struct PostedTime {
    low: u32,
    middle: u32,
    high: u32,
}

impl Model for PostedTime {
    ghost use Rattle.std.specs.Prelude.{◌+◌, ◌*◌, ◌<◌, ℕ, Option, IfSome};
    ghost use Rattle.std.specs.Coded.{codes};
    ghost use Rattle.amr_time.specs.Time.{before_year_10000};
    ghost use Rattle.amr_events.specs.Posts.Times.{posted_time};

    ghost Value = { Option ℕ };

    ghost coded = { Prim.hlevel codes };

    ghost view = { λ time. posted_time
        (time.low + time.middle * 4_294_967_296 + time.high * 18_446_744_073_709_551_616) };

    ghost invariant = { λ time. IfSome (posted_time
        (time.low + time.middle * 4_294_967_296 + time.high * 18_446_744_073_709_551_616))
        (λ moment. moment < before_year_10000) };
}

impl PostedTime {
    /// Returns the posted time that is this moment, or none.
    pub fn new(moment: Option<Moment>) -> PostedTime
        ensures { result ≡ moment }
    {
        let number = match moment {
            None => NONE,
            Some(moment) => moment.nanoseconds(),
        };
        PostedTime {
            low: (number % PART) as u32,
            middle: (number / PART % PART) as u32,
            high: (number / (PART * PART)) as u32,
        }
    }

    /// Returns the moment, if there is one.
    pub fn get(&self) -> Option<Moment>
        ensures { result ≡ self.now }
    {
        let number = self.number();
        if number == NONE {
            return None;
        }
        Some(Moment::from_nanoseconds(number))
    }

    /// Returns the nanoseconds since 1970, or `NONE`.
    fn number(&self) -> u128
        ensures value { posted_time result ≡ self.now }
        ensures bound { IfSome (posted_time result) (λ moment. moment < before_year_10000) }
    {
        self.low as u128 + self.middle as u128 * PART + self.high as u128 * (PART * PART)
    }
}
