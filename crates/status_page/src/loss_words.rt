//! What the reasons of a loss are called.

ghost use Rattle.std.specs.Prelude.{◌≡◌};
ghost use Rattle.status_page.specs.LossWords.{loss_name};

use log_lines::LossReason;

/// The name of a reason, in the metrics and in JSON.
#[tactic(auto, unfolding(crate::specs::LossWords::loss_name))]
pub(crate) fn loss_name(reason: LossReason) -> &'static str
    ensures { result.now ≡ loss_name reason }
{
    match reason {
        LossReason::Overlong => "overlong",
        LossReason::Unfinished => "unfinished",
        LossReason::Idle => "idle",
        LossReason::MemoryShort => "memory_short",
        LossReason::Broken => "broken",
        LossReason::SystemDrop => "system_drop",
    }
}

/// What stands behind a number of losses.
#[derive(Clone, Copy)]
pub(crate) struct CountedWords {
    /// Behind 1.
    pub(crate) one: &'static str,
    /// Behind another number.
    pub(crate) many: &'static str,
}

impl CountedWords {
    /// The same words behind each number.
    fn same(words: &'static str) -> CountedWords {
        CountedWords {
            one: words,
            many: words,
        }
    }
}

/// What stands on the page behind the count of a reason.
pub(crate) fn loss_words(reason: LossReason) -> CountedWords {
    match reason {
        LossReason::Overlong => CountedWords::same(" too long"),
        LossReason::Unfinished => CountedWords::same(" ended within a line or frame"),
        LossReason::Idle => CountedWords::same(" closed as idle"),
        LossReason::MemoryShort => CountedWords::same(" closed as memory was short"),
        LossReason::Broken => CountedWords::same(" broken"),
        LossReason::SystemDrop => CountedWords {
            one: " datagram dropped by the system",
            many: " datagrams dropped by the system",
        },
    }
}
