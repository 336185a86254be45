// Small histories of channels, written out in specs/ChannelRows.antt: each is that of a lawful run, and its reports are exactly those named here.

ghost use Rattle.std.specs.Prelude.{[], ◌∷◌, true, false, Some};
ghost use Rattle.run_laws.specs.Faithful.{OneByOne};
ghost use Rattle.run_laws.specs.Rows.{Shows, no_rules, nothing, only, side, usual};
ghost use Rattle.run_laws.specs.ChannelRows.{cleared, cleared_scripts, destroyed, destroyed_scripts, first_and_second, joined, joined_scripts, kept_by_readers, read_lock, read_lock_scripts, twice_locked, twice_locked_scripts, two_readers, two_readers_scripts, two_turns_apart};

/// What was released before a Destroy isn't acquired after it, on either channel: one report of the read and the write.
pub fn destroy_ends_both_channels()
    ensures { Shows OneByOne usual [] destroyed_scripts destroyed no_rules
        (only (side 1 true false 0x1000000 8 (Some (0x100e4 ∷ []))) (side 0 false false 0x1000000 8 (Some (0x10028 ∷ [])))) }
{}

/// What readers released is acquired after a Clear too: no report.
pub fn clear_keeps_the_channel_of_readers()
    ensures { Shows OneByOne usual [] cleared_scripts cleared no_rules nothing }
{}

/// A writer of a lock knows what its readers did: no report of the write and the read.
pub fn writer_hears_readers()
    ensures { Shows OneByOne usual [] read_lock_scripts read_lock no_rules nothing }
{}

/// A reader of a lock doesn't know what other readers did: one report of two writes under it, with the lock on both sides.
pub fn readers_hear_no_readers()
    ensures { Shows OneByOne usual [] two_readers_scripts two_readers no_rules
        (only (record (side 1 false false 0x1000000 8 (Some (0x100c0 ∷ []))) { locks = kept_by_readers })
        (record (side 0 false false 0x1000000 8 (Some (0x1004c ∷ []))) { locks = kept_by_readers })) }
{}

/// Of a lock that is kept twice, the one that was taken last is given back: one report, which tells the locks that are left in
/// the order in which they were taken.
pub fn last_equal_lock_goes()
    ensures { Shows OneByOne usual [] twice_locked_scripts twice_locked no_rules
        (only (side 1 false false 0x1000000 8 (Some (0x100e4 ∷ [])))
        (record (side 0 false false 0x1000000 8 (Some (0x100b8 ∷ []))) { locks = first_and_second })) }
{}

/// A thread that joins another knows what that one did: no report.
pub fn join_hears_the_ended_thread()
    ensures { Shows OneByOne usual two_turns_apart joined_scripts joined no_rules nothing }
{}
