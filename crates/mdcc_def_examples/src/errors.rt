//! Statuses, and lines on the error stream.
ghost use Rattle.std.specs.Prelude.{◌≡◌, [], codes, Some, None};
ghost use Rattle.mdcc_base.specs.declared.quorums.QuorumFault.TheVariants.{FastMeet};
ghost use Rattle.mdcc_option.specs.declared.faults.DraftFault.TheVariants.{TooMany, RepeatedKey, BadAttribute, ZeroAmount, OutOfBounds};
ghost use Rattle.mdcc_option.specs.declared.schema.SchemaFault.TheVariants.{Bound};
ghost use Rattle.mdcc_def_language.specs.declared.schedule.HeaderCause.TheVariants.{Sched, Quorums, Schema};
ghost use Rattle.mdcc_def_language.specs.declared.schedule.SchedCause.{SchedCause};
ghost use Rattle.mdcc_def_language.specs.declared.schedule.SchedCause.TheVariants.{Word, Key, Order};
ghost use Rattle.mdcc_def_language.specs.declared.world.EventFault.{EventFault};
ghost use Rattle.mdcc_def_language.specs.declared.world.EventFault.TheVariants.{NoMessage, Down, Up, NoRead, Begin, Limit};
ghost use Rattle.mdcc_def_language.specs.declared.world.LimitName.TheVariants.{Events, Cells, Log, Bytes};
ghost use Rattle.mdcc_def_language.specs.Errors.{TooLong, AtHeader, AtLine, AtEvent, status_of, error_text};

// ---- Each fault

pub fn header_quorums()
    ensures { error_text (Some (AtHeader (record { line = 2; cause = Quorums FastMeet }))) ≡ codes "mdcc: header line 2: FastMeet\n" }
{}

pub fn header_quorums_status()
    ensures { status_of (Some (AtHeader (record { line = 2; cause = Quorums FastMeet }))) ≡ 3 }
{}

pub fn header_order()
    ensures { error_text (Some (AtHeader (record { line = 1; cause = Sched Order }))) ≡ codes "mdcc: header line 1: Order\n" }
{}

pub fn header_order_status()
    ensures { status_of (Some (AtHeader (record { line = 1; cause = Sched Order }))) ≡ 3 }
{}

pub fn header_bound()
    ensures { error_text (Some (AtHeader (record { line = 5; cause = Schema (Bound 2) }))) ≡ codes "mdcc: header line 5: Bound\n" }
{}

pub fn header_bound_status()
    ensures { status_of (Some (AtHeader (record { line = 5; cause = Schema (Bound 2) }))) ≡ 3 }
{}

pub fn line_word()
    ensures { error_text (Some (AtLine 6 (record { column = 18; cause = Word }))) ≡ codes "mdcc: line 6 column 18: Word\n" }
{}

pub fn line_word_status()
    ensures { status_of (Some (AtLine 6 (record { column = 18; cause = Word }))) ≡ 4 }
{}

pub fn line_key()
    ensures { error_text (Some (AtLine 10 (record { column = 8; cause = Key }))) ≡ codes "mdcc: line 10 column 8: Key\n" }
{}

pub fn line_key_status()
    ensures { status_of (Some (AtLine 10 (record { column = 8; cause = Key }))) ≡ 4 }
{}

pub fn line_memory()
    ensures { error_text (Some (AtLine 6 (record { column = 1; cause = SchedCause.Memory }))) ≡ codes "mdcc: memory\n" }
{}

pub fn line_memory_status()
    ensures { status_of (Some (AtLine 6 (record { column = 1; cause = SchedCause.Memory }))) ≡ 10 }
{}

pub fn no_message()
    ensures { error_text (Some (AtEvent 6 (NoMessage 99))) ≡ codes "mdcc: line 6: NoMessage 99\n" }
{}

pub fn no_message_status()
    ensures { status_of (Some (AtEvent 6 (NoMessage 99))) ≡ 4 }
{}

pub fn centre_down()
    ensures { error_text (Some (AtEvent 6 (Down 2))) ≡ codes "mdcc: line 6: Down 2\n" }
{}

pub fn centre_down_status()
    ensures { status_of (Some (AtEvent 6 (Down 2))) ≡ 4 }
{}

pub fn centre_up()
    ensures { error_text (Some (AtEvent 6 (Up 1))) ≡ codes "mdcc: line 6: Up 1\n" }
{}

pub fn centre_up_status()
    ensures { status_of (Some (AtEvent 6 (Up 1))) ≡ 4 }
{}

pub fn no_such_read()
    ensures { error_text (Some (AtEvent 6 (NoRead 4294967295))) ≡ codes "mdcc: line 6: NoRead 4294967295\n" }
{}

pub fn no_such_read_status()
    ensures { status_of (Some (AtEvent 6 (NoRead 4294967295))) ≡ 4 }
{}

pub fn too_many_parts()
    ensures { error_text (Some (AtEvent 6 (Begin TooMany))) ≡ codes "mdcc: line 6: Begin TooMany\n" }
{}

pub fn too_many_parts_status()
    ensures { status_of (Some (AtEvent 6 (Begin TooMany))) ≡ 4 }
{}

pub fn repeated_key()
    ensures { error_text (Some (AtEvent 6 (Begin RepeatedKey))) ≡ codes "mdcc: line 6: Begin RepeatedKey\n" }
{}

pub fn repeated_key_status()
    ensures { status_of (Some (AtEvent 6 (Begin RepeatedKey))) ≡ 4 }
{}

pub fn bad_attribute()
    ensures { error_text (Some (AtEvent 6 (Begin BadAttribute))) ≡ codes "mdcc: line 6: Begin BadAttribute\n" }
{}

pub fn bad_attribute_status()
    ensures { status_of (Some (AtEvent 6 (Begin BadAttribute))) ≡ 4 }
{}

pub fn zero_amount()
    ensures { error_text (Some (AtEvent 6 (Begin ZeroAmount))) ≡ codes "mdcc: line 6: Begin ZeroAmount\n" }
{}

pub fn zero_amount_status()
    ensures { status_of (Some (AtEvent 6 (Begin ZeroAmount))) ≡ 4 }
{}

pub fn out_of_bounds()
    ensures { error_text (Some (AtEvent 6 (Begin OutOfBounds))) ≡ codes "mdcc: line 6: Begin OutOfBounds\n" }
{}

pub fn out_of_bounds_status()
    ensures { status_of (Some (AtEvent 6 (Begin OutOfBounds))) ≡ 4 }
{}

pub fn limit_of_events()
    ensures { error_text (Some (AtEvent 6 (Limit Events 100000))) ≡ codes "mdcc: limit events 100000\n" }
{}

pub fn limit_of_events_status()
    ensures { status_of (Some (AtEvent 6 (Limit Events 100000))) ≡ 11 }
{}

pub fn limit_of_cells()
    ensures { error_text (Some (AtEvent 6 (Limit Cells 4))) ≡ codes "mdcc: limit cells 4\n" }
{}

pub fn limit_of_cells_status()
    ensures { status_of (Some (AtEvent 6 (Limit Cells 4))) ≡ 11 }
{}

pub fn limit_of_a_log()
    ensures { error_text (Some (AtEvent 6 (Limit Log 1073741824))) ≡ codes "mdcc: limit log 1073741824\n" }
{}

pub fn limit_of_a_log_status()
    ensures { status_of (Some (AtEvent 6 (Limit Log 1073741824))) ≡ 11 }
{}

pub fn limit_of_bytes()
    ensures { error_text (Some (AtEvent 6 (Limit Bytes 536870912))) ≡ codes "mdcc: limit bytes 536870912\n" }
{}

pub fn limit_of_bytes_status()
    ensures { status_of (Some (AtEvent 6 (Limit Bytes 536870912))) ≡ 11 }
{}

pub fn event_memory()
    ensures { error_text (Some (AtEvent 6 (EventFault.Memory))) ≡ codes "mdcc: memory\n" }
{}

pub fn event_memory_status()
    ensures { status_of (Some (AtEvent 6 (EventFault.Memory))) ≡ 10 }
{}

pub fn limit_of_the_input()
    ensures { error_text (Some (TooLong)) ≡ codes "mdcc: limit input 67108864\n" }
{}

pub fn limit_of_the_input_status()
    ensures { status_of (Some (TooLong)) ≡ 11 }
{}

pub fn no_error()
    ensures { error_text None ≡ [] }
{}

pub fn no_error_status()
    ensures { status_of None ≡ 0 }
{}
