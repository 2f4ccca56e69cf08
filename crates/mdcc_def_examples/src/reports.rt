//! Lines of reports, as they are printed.
ghost use Rattle.std.specs.Prelude.{◌≡◌, pos, negsuc, true, false, [], ◌∷◌, codes, Some};
ghost use Rattle.mdcc_option.specs.declared.faults.BeginFault.TheVariants.{Stale, Unseen, NoItem, Sequence, Busy};
ghost use Rattle.mdcc_base.specs.declared.outside.Image.TheVariants.{Lost, Kept, Torn};
ghost use Rattle.mdcc_def_language.specs.declared.lines.Line.TheVariants.{Read, Begun, Refused, Deliver, Settle, Settled, Tick, Crash, Stop, Restart, Stopped, Dropped, Chosen, Heard, End};
ghost use Rattle.mdcc_def_language.specs.Report.{line_text, header_text};
ghost use Rattle.mdcc_def_examples.specs.Texts.{item_with, tx_with, read_a, read_b};

// ---- Each line

pub fn read_line()
    ensures { line_text (Read 2 5 read_a) ≡ codes "read 2 at 5 a version 3 seen 1 values 7 body ff\n" }
{}

pub fn read_line_without_item()
    ensures { line_text (Read 1 1 read_b) ≡ codes "read 1 at 1 b version 0 none\n" }
{}

pub fn read_line_of_an_empty_body()
    ensures { line_text (Read 1 2 (record read_a { item = Some (item_with [] (pos 10 ∷ negsuc 0 ∷ pos 0 ∷ negsuc 9223372036854775807 ∷ [])) })) ≡ codes "read 1 at 2 a version 3 seen 1 values 10,-1,0,-9223372036854775808 body -\n" }
{}

pub fn read_line_of_a_body()
    ensures { line_text (Read 1 2 (record read_a { item = Some (item_with (0 ∷ 10 ∷ 160 ∷ 171 ∷ []) (pos 1 ∷ [])) })) ≡ codes "read 1 at 2 a version 3 seen 1 values 1 body 000aa0ab\n" }
{}

pub fn begin_line()
    ensures { line_text (Begun (tx_with 1 1 2) 6) ≡ codes "begin 1.1.2 next 6\n" }
{}

pub fn stale_line()
    ensures { line_text (Refused (codes "a") (Stale (record { version = 1; seen = tx_with 1 1 1 ∷ tx_with 2 1 1 ∷ [] }))) ≡ codes "begin refused stale a version 1 seen 2\n" }
{}

pub fn unseen_line()
    ensures { line_text (Refused (codes "item/1") (Unseen 18446744073709551615)) ≡ codes "begin refused unseen item/1 version 18446744073709551615\n" }
{}

pub fn no_item_line()
    ensures { line_text (Refused (codes "zz") NoItem) ≡ codes "begin refused noitem zz\n" }
{}

pub fn sequence_line()
    ensures { line_text (Refused (codes "a") Sequence) ≡ codes "begin refused sequence\n" }
{}

pub fn busy_line()
    ensures { line_text (Refused (codes "a") Busy) ≡ codes "begin refused busy\n" }
{}

pub fn deliver_line()
    ensures { line_text (Deliver 4294967295 10) ≡ codes "deliver 4294967295 next 10\n" }
{}

pub fn settle_line()
    ensures { line_text (Settle []) ≡ codes "settle\n" }
{}

pub fn settle_line_of_centres()
    ensures { line_text (Settle (3 ∷ 4 ∷ 5 ∷ [])) ≡ codes "settle 3 4 5\n" }
{}

pub fn settled_line()
    ensures { line_text (Settled 0 1) ≡ codes "settled 0 next 1\n" }
{}

pub fn tick_line()
    ensures { line_text (Tick 2 19) ≡ codes "tick 2 next 19\n" }
{}

pub fn crash_line()
    ensures { line_text (Crash 1) ≡ codes "crash 1\n" }
{}

pub fn stop_line_lost()
    ensures { line_text (Stop 2 1 Lost) ≡ codes "stop 2 1 lost\n" }
{}

pub fn stop_line_kept()
    ensures { line_text (Stop 2 3 Kept) ≡ codes "stop 2 3 kept\n" }
{}

pub fn stop_line_torn()
    ensures { line_text (Stop 2 4 Torn) ≡ codes "stop 2 4 torn\n" }
{}

pub fn restart_line()
    ensures { line_text (Restart 2 4294967295) ≡ codes "restart 2 epoch 4294967295\n" }
{}

pub fn stopped_line()
    ensures { line_text (Stopped 9) ≡ codes "stopped 9\n" }
{}

pub fn dropped_line()
    ensures { line_text (Dropped 1 2 0) ≡ codes "dropped 1 needs 2 spare 0\n" }
{}

pub fn chosen_line()
    ensures { line_text (Chosen (tx_with 9 2 1) true) ≡ codes "chosen 9.2.1 commit\n" }
{}

pub fn chosen_line_of_an_abort()
    ensures { line_text (Chosen (tx_with 1 1 1) false) ≡ codes "chosen 1.1.1 abort\n" }
{}

pub fn heard_line()
    ensures { line_text (Heard 3 (tx_with 1 1 1) true) ≡ codes "heard 3 1.1.1 commit\n" }
{}

pub fn heard_line_of_an_abort()
    ensures { line_text (Heard 3 (tx_with 1 1 1) false) ≡ codes "heard 3 1.1.1 abort\n" }
{}

pub fn end_line()
    ensures { line_text (End 9 13 1 2 3) ≡ codes "end events 9 messages 13 commits 1 aborts 2 open 3\n" }
{}

// ---- The header

pub fn header_of_a_report()
    ensures { header_text 59 (codes "mdcc-schedule 1\nquorums 5 3 4\ngamma 100\nbound 0 1000\nstart\ntick 1\n") ≡ codes "mdcc-report 1\nquorums 5 3 4\ngamma 100\nbound 0 1000\nstart\n" }
{}
