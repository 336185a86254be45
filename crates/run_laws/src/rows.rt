// Small histories that are written out in specs/Rows.antt: each is that of a lawful run, and its reports are exactly those named here.

ghost use Rattle.std.specs.Prelude.{[], ◌∷◌, true, false, Some, None};
ghost use Rattle.run_laws.specs.Faithful.{OneByOne, AtOnce};
ghost use Rattle.run_laws.specs.Rows.{Shows, at_once, at_once_scripts, both_atomic, both_atomic_scripts, deep_stack, deep_stack_scripts, fresh_slot, handed_over, handed_over_scripts, locked, locked_scripts, neighbours, neighbours_scripts, no_rules, not_handed_over, not_handed_over_scripts, nothing, only, plain_and_atomic, plain_and_atomic_scripts, recycled_slot, replaced, replaced_scripts, same_race_twice, same_race_twice_scripts, second_place_rule, shared_byte, shared_byte_scripts, side, small_trace, spent_slots, spent_slots_scripts, starved, starved_at_once, starved_scripts, taken_back, taken_back_scripts, thirty_instructions, three_instructions, three_turns, two_children_scripts, two_epochs, two_harts, two_of_each, two_races, two_races_scripts, two_reads, two_reads_scripts, two_slots, two_turns, two_writes, two_writes_scripts, usual, write_before_create, write_before_create_scripts};

/// Two threads write the same bytes without order: one report of the second write and the first.
pub fn two_writes_without_order()
    ensures { Shows OneByOne usual [] two_writes_scripts two_writes no_rules (only (side 1 false false 0x1000000 8 (Some (0x10054 ∷ []))) (side 0 false false 0x1000000 8 (Some (0x10028 ∷ [])))) }
{}

/// The same two writes under a rule that is met: no report, and one that is suppressed.
pub fn suppressed_report()
    ensures { Shows OneByOne usual [] two_writes_scripts two_writes second_place_rule (record { reports = []; suppressed = 1; equal = 0 }) }
{}

/// A thread writes, then creates another that reads: the clock has just the write's epoch, so there is no report.
pub fn write_before_create()
    ensures { Shows OneByOne usual [] write_before_create_scripts write_before_create no_rules nothing }
{}

/// A thread writes and releases a channel, another acquires it and reads: no report.
pub fn write_handed_over()
    ensures { Shows OneByOne usual [] handed_over_scripts handed_over no_rules nothing }
{}

/// The same with a store of the flag that releases nothing: one report of the read and the write.
pub fn write_not_handed_over()
    ensures { Shows OneByOne usual [] not_handed_over_scripts not_handed_over no_rules (only (side 1 true false 0x1000000 8 (Some (0x1009c ∷ []))) (side 0 false false 0x1000000 8 (Some (0x10028 ∷ [])))) }
{}

/// Two threads run at once, and in one round one releases the channel that the other acquires: no report.
pub fn channel_shared_at_once()
    ensures { Shows AtOnce three_instructions [] at_once_scripts at_once no_rules nothing }
{}

/// A thread acquires a channel on which another's store replaced what the writer told: one report of the read and the write.
pub fn replacing_release_ends_a_channel()
    ensures { Shows OneByOne usual [] replaced_scripts replaced no_rules (only (side 2 true false 0x1000000 8 (Some (0x100d8 ∷ []))) (side 0 false false 0x1000000 8 (Some (0x10038 ∷ [])))) }
{}

/// A thread writes and releases a channel, then stores there and releases nothing; another acquires the channel and reads: one report of the read and the write.
pub fn store_without_release_ends_a_channel()
    ensures { Shows OneByOne usual [] taken_back_scripts taken_back no_rules (only (side 1 true false 0x1000000 8 (Some (0x100c0 ∷ []))) (side 0 false false 0x1000000 8 (Some (0x10028 ∷ [])))) }
{}

/// A plain and an atomic write without order: one report.
pub fn plain_and_atomic_write()
    ensures { Shows OneByOne usual [] plain_and_atomic_scripts plain_and_atomic no_rules (only (side 1 false true 0x1000000 8 (Some (0x10054 ∷ []))) (side 0 false false 0x1000000 8 (Some (0x10028 ∷ [])))) }
{}

/// Two atomic writes without order: no report.
pub fn two_atomic_writes()
    ensures { Shows OneByOne usual [] both_atomic_scripts both_atomic no_rules nothing }
{}

/// Two writes of neighbouring bytes: no report.
pub fn neighbouring_bytes()
    ensures { Shows OneByOne usual [] neighbours_scripts neighbours no_rules nothing }
{}

/// Two writes with one byte in common: one report, each side with its own size.
pub fn one_byte_in_common()
    ensures { Shows OneByOne usual [] shared_byte_scripts shared_byte no_rules (only (side 1 false false 0x1000000 2 (Some (0x10054 ∷ []))) (side 0 false false 0x1000000 1 (Some (0x10028 ∷ [])))) }
{}

/// Four releases spend two slots of two epochs: the thread takes the slots 0, 1 and 2, and leaves 0 and 1 at epoch 2.
pub fn spent_slots_are_left()
    ensures { Shows OneByOne two_epochs [] spent_slots_scripts spent_slots no_rules nothing }
{}

/// A thread takes the slot that another gave back, one epoch later: their two writes count as ordered, and there is no report.
pub fn recycled_slot_hides_a_race()
    ensures { Shows OneByOne two_slots three_turns two_children_scripts recycled_slot no_rules nothing }
{}

/// The same two threads in different slots: one report.
pub fn fresh_slot_shows_the_race()
    ensures { Shows OneByOne two_harts three_turns two_children_scripts fresh_slot no_rules (only (side 2 false false 0x1000000 8 (Some (0x1006c ∷ []))) (side 1 false false 0x1000000 8 (Some (0x10040 ∷ [])))) }
{}

/// A round in which a thread finds no slot: an era begins, the old era's word is passed over, and the two writes of the new era are one report.
pub fn starved_round_begins_an_era()
    ensures { Shows OneByOne two_of_each two_turns starved_scripts starved no_rules (only (side 1 false false 0x1000018 8 (Some (0x10108 ∷ []))) (side 0 false false 0x1000018 8 (Some (0x10070 ∷ [])))) }
{}

/// The same threads at once: both find no slot in one round, and one of them makes no instruction in it.
pub fn starved_round_at_once()
    ensures { Shows AtOnce thirty_instructions [] starved_scripts starved_at_once no_rules (only (side 1 false false 0x1000018 8 (Some (0x10108 ∷ []))) (side 0 false false 0x1000018 8 (Some (0x10070 ∷ [])))) }
{}

/// Two reads with one word, and a write of another thread: one report, which tells the first of the reads.
pub fn repeated_read_tells_the_first()
    ensures { Shows OneByOne usual [] two_reads_scripts two_reads no_rules (only (side 1 false false 0x1000000 8 (Some (0x1009c ∷ []))) (side 0 true false 0x1000000 8 (Some (0x10028 ∷ [])))) }
{}

/// A write under a lock and one without: one report, which tells the lock that the first write's thread kept.
pub fn kept_locks_are_told()
    ensures { Shows OneByOne usual [] locked_scripts locked no_rules (only (side 1 false false 0x1000000 8 (Some (0x1009c ∷ []))) (record (side 0 false false 0x1000000 8 (Some (0x1004c ∷ []))) { locks = record { addr = 0x1000008; read = false } ∷ [] })) }
{}

/// Two children make the same race with the main thread: one report, and one that is equal to it.
pub fn equal_reports_are_counted()
    ensures { Shows OneByOne usual [] same_race_twice_scripts same_race_twice no_rules (record { reports = record { mine = (side 1 false false 0x1000000 8 (Some (0x10064 ∷ []))); previous = (side 0 false false 0x1000000 8 (Some (0x10038 ∷ []))) } ∷ []; suppressed = 0; equal = 1 }) }
{}

/// Two children make different writes that race with the main thread's: two reports, though they have one stack in common.
pub fn reports_with_one_stack_in_common()
    ensures { Shows OneByOne usual [] two_races_scripts two_races no_rules (record { reports = record { mine = (side 1 false false 0x1000000 8 (Some (0x10064 ∷ []))); previous = (side 0 false false 0x1000000 8 (Some (0x10038 ∷ []))) } ∷ record { mine = (side 2 false false 0x1000000 8 (Some (0x10090 ∷ []))); previous = (side 0 false false 0x1000000 8 (Some (0x10038 ∷ []))) } ∷ []; suppressed = 0; equal = 0 }) }
{}

/// A write, 62 calls and a race: the two parts of the trace still hold the write's label, and the report has its stack.
pub fn stack_is_held()
    ensures { Shows OneByOne small_trace [] (deep_stack_scripts 62) (deep_stack 62) no_rules (only (side 1 false false 0x1000000 8 (Some (0x10018 ∷ []))) (side 0 false false 0x1000000 8 (Some (0x10054 ∷ [])))) }
{}

/// With 63 calls the label is in no held part: the report tells the thread, kind and bytes of the write, and no stack.
pub fn stack_is_lost()
    ensures { Shows OneByOne small_trace [] (deep_stack_scripts 63) (deep_stack 63) no_rules (only (side 1 false false 0x1000000 8 (Some (0x10018 ∷ []))) (side 0 false false 0x1000000 8 None)) }
{}
