ghost use Rattle.std.specs.Prelude.{◌≡◌};
ghost use Rattle.rules.specs.Notices.{notice_band, unfit_notice};

use super::range::Quantity;

// Where a notice's foreign shares stand to the marks of their holding limit.
#[derive(Clone, Copy, PartialEq, Eq, Debug)]
pub enum NoticeBand {
    Suspending,
    Between,
    Reopening,
}

impl NoticeBand {
    // The band of so many foreign shares in so many shares in all.
    pub fn of(foreign: u64, total: u64) -> NoticeBand
        ensures { result ≡ notice_band foreign total }
    {
        let held = foreign as u128 * 100;
        if held >= total as u128 * 28 {
            NoticeBand::Suspending
        } else if held <= total as u128 * 26 {
            NoticeBand::Reopening
        } else {
            NoticeBand::Between
        }
    }
}

// Whether a notice's numbers cannot be: no total in range, or more foreign shares than there are.
pub fn is_unfit(foreign: u64, total: u64) -> bool
    ensures { result ≡ unfit_notice foreign total }
{
    !Quantity::TotalShares.has(total) || foreign > total
}
