// Which labels a part may have.
ghost use Rattle.std.specs.Prelude.{◌≡◌, true};
ghost use Rattle.run_record.specs.declared.entry.Label.{Label as RunLabel};

use crate::TraceEvent;
use run_record::Label;

/// What is kept of the labels among some events: there is none, or all have one slot and era and an
/// epoch within a range, or nothing is known of them.
#[derive(Clone, Copy)]
pub(crate) enum LabelRange {
    Empty,
    Epochs {
        sid: u8,
        era: u32,
        least: u16,
        greatest: u16,
    },
    All,
}

impl LabelRange {
    ghost use Rattle.run_laws.specs.Window.{is_label};
    ghost use Rattle.trace_parts.specs.LabelRange.{is_in_range};
    ghost use Rattle.trace_parts.specs.Spelling.{told};

    /// The label may be among the events.
    pub(crate) fn contains(&self, label: &Label) -> bool
        ensures { result ≡ is_in_range self.now label.now }
    {
        match *self {
            LabelRange::Empty => false,
            LabelRange::Epochs {
                sid,
                era,
                least,
                greatest,
            } => {
                label.sid == sid
                    && label.era == era
                    && least <= label.epoch
                    && label.epoch <= greatest
            }
            LabelRange::All => true,
        }
    }

    /// One more label among the events.
    pub(crate) fn include(&mut self, label: &Label)
        ensures included { is_in_range self.new label.now ≡ true }
        ensures kept { (l : RunLabel) → is_in_range self.old l ≡ true → is_in_range self.new l ≡ true }
    {
        let Label { sid, epoch, era } = *label;
        *self = match *self {
            LabelRange::Empty => LabelRange::Epochs {
                sid,
                era,
                least: epoch,
                greatest: epoch,
            },
            LabelRange::Epochs {
                sid: slot,
                era: same,
                least,
                greatest,
            } if slot == sid && same == era => LabelRange::Epochs {
                sid,
                era,
                least: least.min(epoch),
                greatest: greatest.max(epoch),
            },
            _ => LabelRange::All,
        };
    }

    /// One more event.
    pub(crate) fn include_event(&mut self, event: &TraceEvent)
        ensures included { (l : RunLabel) → is_label l (told event.now) ≡ true → is_in_range self.new l ≡ true }
        ensures kept { (l : RunLabel) → is_in_range self.old l ≡ true → is_in_range self.new l ≡ true }
    {
        if let TraceEvent::Label { sid, epoch, era } = *event {
            self.include(&Label { sid, epoch, era });
        }
    }
}
