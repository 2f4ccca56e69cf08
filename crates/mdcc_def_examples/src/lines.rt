//! Lines of schedules, and what they are read as.
ghost use Rattle.std.specs.Prelude.{◌≡◌, pos, negsuc, [], ◌∷◌, ◌++◌, codes, replicate, Ok};
ghost use Rattle.std.specs.List.{flat_map};
ghost use Rattle.mdcc_base.specs.declared.outside.Image.TheVariants.{Lost, Kept, Torn};
ghost use Rattle.mdcc_def_language.specs.declared.events.Event.TheVariants.{Read, Begin, Deliver, Settle, Tick, Crash, Restart, Stop};
ghost use Rattle.mdcc_def_language.specs.declared.events.UpdateWord.TheVariants.{New, Set, Add, Keep};
ghost use Rattle.mdcc_def_language.specs.declared.schedule.SchedCause.TheVariants.{Word, Number, Key, Range, Order};
ghost use Rattle.mdcc_def_language.specs.Updates.{update_of};
ghost use Rattle.mdcc_def_language.specs.Words.{number_of, refused};
ghost use Rattle.mdcc_def_examples.specs.Texts.{line, event, begin_line_of, skipped, item_with};

// ---- Each word

pub fn read_word()
    ensures { line (codes "read 1 a\n") ≡ event (Read 1 (codes "a")) }
{}

pub fn read_other_centre()
    ensures { line (codes "read 5 item/1_A.b-\n") ≡ event (Read 5 (codes "item/1_A.b-")) }
{}

pub fn begin_new()
    ensures { line (codes "begin 1 new:a:-:10\n") ≡ begin_line_of (New (codes "a") (item_with [] (pos 10 ∷ []))) }
{}

pub fn begin_set()
    ensures { line (codes "begin 1 set:2:-:11\n") ≡ begin_line_of (Set 2 (item_with [] (pos 11 ∷ []))) }
{}

pub fn begin_add()
    ensures { line (codes "begin 1 add:1:1=-4\n") ≡ begin_line_of (Add 1 ((1, negsuc 3) ∷ [])) }
{}

pub fn begin_add_four()
    ensures { line (codes "begin 1 add:1:1=3,4=0,2=-5,2=7\n") ≡ begin_line_of (Add 1 ((1, pos 3) ∷ (4, pos 0) ∷ (2, negsuc 4) ∷ (2, pos 7) ∷ [])) }
{}

pub fn begin_keep()
    ensures { line (codes "begin 1 keep:2\n") ≡ begin_line_of (Keep 2) }
{}

pub fn begin_several()
    ensures { line (codes "begin 3 new:a:00ff:1,-2 keep:7\n") ≡ event (Begin 3 (New (codes "a") (item_with (0 ∷ 255 ∷ []) (pos 1 ∷ negsuc 1 ∷ [])) ∷ Keep 7 ∷ [])) }
{}

pub fn deliver_one()
    ensures { line (codes "deliver 1\n") ≡ event (Deliver (1 ∷ [])) }
{}

pub fn deliver_several()
    ensures { line (codes "deliver 10 2 10\n") ≡ event (Deliver (10 ∷ 2 ∷ 10 ∷ [])) }
{}

pub fn settle_all()
    ensures { line (codes "settle\n") ≡ event (Settle []) }
{}

pub fn settle_some()
    ensures { line (codes "settle 3 4 5\n") ≡ event (Settle (3 ∷ 4 ∷ 5 ∷ [])) }
{}

pub fn tick_word()
    ensures { line (codes "tick 1\n") ≡ event (Tick 1) }
{}

pub fn crash_word()
    ensures { line (codes "crash 5\n") ≡ event (Crash 5) }
{}

pub fn restart_word()
    ensures { line (codes "restart 2\n") ≡ event (Restart 2) }
{}

pub fn stop_kept()
    ensures { line (codes "stop 2 3 kept\n") ≡ event (Stop 2 3 Kept) }
{}

pub fn stop_lost()
    ensures { line (codes "stop 1 1 lost\n") ≡ event (Stop 1 1 Lost) }
{}

pub fn stop_torn()
    ensures { line (codes "stop 5 4 torn\n") ≡ event (Stop 5 4 Torn) }
{}

pub fn empty_line()
    ensures { line (codes "\n") ≡ skipped }
{}

pub fn comment()
    ensures { line (codes "# tick 1\n") ≡ skipped }
{}

pub fn bare_comment()
    ensures { line (codes "#\n") ≡ skipped }
{}

// ---- Words, separators

pub fn unknown_word()
    ensures { line (codes "tock 1\n") ≡ refused 1 Word }
{}

pub fn longer_word()
    ensures { line (codes "ticks 1\n") ≡ refused 1 Word }
{}

pub fn space_before()
    ensures { line (codes " tick 1\n") ≡ refused 1 Word }
{}

pub fn space_before_comment()
    ensures { line (codes " # tick\n") ≡ refused 1 Word }
{}

pub fn missing_centre()
    ensures { line (codes "tick\n") ≡ refused 5 Word }
{}

pub fn missing_key()
    ensures { line (codes "read 1\n") ≡ refused 7 Word }
{}

pub fn missing_update()
    ensures { line (codes "begin 1\n") ≡ refused 8 Word }
{}

pub fn missing_number()
    ensures { line (codes "deliver\n") ≡ refused 8 Word }
{}

pub fn missing_image()
    ensures { line (codes "stop 1 1\n") ≡ refused 9 Word }
{}

pub fn space_for_a_word()
    ensures { line (codes "tick \n") ≡ refused 6 Word }
{}

pub fn two_spaces()
    ensures { line (codes "tick  1\n") ≡ refused 6 Word }
{}

pub fn two_spaces_in_a_list()
    ensures { line (codes "deliver 1  2\n") ≡ refused 11 Word }
{}

pub fn two_spaces_before_an_update()
    ensures { line (codes "begin 1 keep:1  keep:2\n") ≡ refused 16 Word }
{}

pub fn space_at_the_end()
    ensures { line (codes "tick 1 \n") ≡ refused 8 Word }
{}

pub fn space_at_the_end_of_a_list()
    ensures { line (codes "deliver 1 \n") ≡ refused 11 Word }
{}

pub fn space_behind_settle()
    ensures { line (codes "settle \n") ≡ refused 8 Word }
{}

pub fn superfluous_word()
    ensures { line (codes "tick 1 2\n") ≡ refused 8 Word }
{}

pub fn superfluous_key()
    ensures { line (codes "read 1 a b\n") ≡ refused 10 Word }
{}

pub fn superfluous_image()
    ensures { line (codes "stop 1 1 kept kept\n") ≡ refused 15 Word }
{}

pub fn unknown_image()
    ensures { line (codes "stop 1 1 gone\n") ≡ refused 10 Word }
{}

pub fn unknown_update()
    ensures { line (codes "begin 1 old:1\n") ≡ refused 9 Word }
{}

pub fn missing_colon()
    ensures { line (codes "begin 1 new\n") ≡ refused 12 Word }
{}

pub fn missing_second_colon()
    ensures { line (codes "begin 1 new:a\n") ≡ refused 14 Word }
{}

pub fn missing_third_colon()
    ensures { line (codes "begin 1 new:a:-\n") ≡ refused 16 Word }
{}

pub fn missing_colon_of_keep()
    ensures { line (codes "begin 1 keep\n") ≡ refused 13 Word }
{}

pub fn missing_colon_of_add()
    ensures { line (codes "begin 1 add:1\n") ≡ refused 14 Word }
{}

pub fn missing_equals()
    ensures { line (codes "begin 1 add:1:1\n") ≡ refused 16 Word }
{}

pub fn missing_equals_in_a_list()
    ensures { line (codes "begin 1 add:1:1=2,3,4=5\n") ≡ refused 20 Word }
{}

pub fn part_too_much_of_keep()
    ensures { line (codes "begin 1 keep:1:2\n") ≡ refused 16 Word }
{}

pub fn part_too_much_of_new()
    ensures { line (codes "begin 1 new:a:-:1:2\n") ≡ refused 19 Word }
{}

pub fn part_too_much_of_add()
    ensures { line (codes "begin 1 add:1:1=2:3\n") ≡ refused 19 Word }
{}

pub fn amount_too_much()
    ensures { line (codes "begin 1 add:1:1=2=3\n") ≡ refused 19 Word }
{}

pub fn empty_part_too_much()
    ensures { line (codes "begin 1 keep:1:\n") ≡ refused 16 Word }
{}

// ---- Line ends, and the longest line

pub fn missing_line_end()
    ensures { line (codes "tick 1") ≡ refused 7 Word }
{}

pub fn missing_line_end_of_begin()
    ensures { line (codes "begin 1 new:a:-:1") ≡ refused 18 Word }
{}

pub fn missing_line_end_of_comment()
    ensures { line (codes "# x") ≡ refused 4 Word }
{}

pub fn nothing_at_all()
    ensures { line (codes "") ≡ refused 1 Word }
{}

pub fn missing_line_end_is_last()
    ensures { line (codes "tick 6") ≡ refused 6 Range }
{}

pub fn two_line_ends()
    ensures { line (codes "tick 1\n\n") ≡ refused 8 Word }
{}

pub fn longest_comment()
    ensures { line (35 ∷ replicate 4095 120 ++ codes "\n") ≡ skipped }
{}

pub fn too_long_comment()
    ensures { line (35 ∷ replicate 4096 120 ++ codes "\n") ≡ refused 4097 Range }
{}

pub fn too_long_behind_a_fault()
    ensures { line (codes "tock " ++ replicate 4092 49 ++ codes "\n") ≡ refused 1 Word }
{}

pub fn too_long_number()
    ensures { line (codes "deliver " ++ replicate 4089 49 ++ codes "\n") ≡ refused 9 Range }
{}

pub fn too_long_without_a_fault()
    ensures { line (codes "deliver" ++ flat_map (λ space. space ∷ codes "1") (replicate 2045 32) ++ codes "\n") ≡ refused 4097 Range }
{}

pub fn too_long_before_a_fault()
    ensures { line (codes "deliver" ++ flat_map (λ space. space ∷ codes "1") (replicate 2045 32) ++ codes " x\n") ≡ refused 4097 Range }
{}

pub fn too_long_without_end()
    ensures { line (35 ∷ replicate 4096 120) ≡ refused 4097 Range }
{}

pub fn longest_without_end()
    ensures { line (35 ∷ replicate 4095 120) ≡ refused 4097 Word }
{}

pub fn longest_line()
    ensures { line (codes "tick 1" ++ replicate 4090 32 ++ codes "\n") ≡ refused 8 Word }
{}

// ---- Numbers

pub fn no_number()
    ensures { line (codes "tick x\n") ≡ refused 6 Number }
{}

pub fn leading_zero()
    ensures { line (codes "tick 01\n") ≡ refused 6 Number }
{}

pub fn leading_zeros()
    ensures { line (codes "deliver 007\n") ≡ refused 9 Number }
{}

pub fn sign_of_a_centre()
    ensures { line (codes "tick -1\n") ≡ refused 6 Number }
{}

pub fn plus()
    ensures { line (codes "tick +1\n") ≡ refused 6 Number }
{}

pub fn later_number()
    ensures { line (codes "deliver 1 2 3x\n") ≡ refused 13 Number }
{}

pub fn minus_zero()
    ensures { line (codes "begin 1 new:a:-:-0\n") ≡ refused 17 Number }
{}

pub fn minus_zeros()
    ensures { line (codes "begin 1 new:a:-:-07\n") ≡ refused 17 Number }
{}

pub fn minus_alone()
    ensures { line (codes "begin 1 new:a:-:-\n") ≡ refused 17 Number }
{}

pub fn two_minuses()
    ensures { line (codes "begin 1 new:a:-:--1\n") ≡ refused 17 Number }
{}

pub fn no_value()
    ensures { line (codes "begin 1 new:a:-:\n") ≡ refused 17 Number }
{}

pub fn no_second_value()
    ensures { line (codes "begin 1 new:a:-:1,\n") ≡ refused 19 Number }
{}

pub fn no_first_value()
    ensures { line (codes "begin 1 new:a:-:,1\n") ≡ refused 17 Number }
{}

pub fn sign_of_an_attribute()
    ensures { line (codes "begin 1 add:1:-1=2\n") ≡ refused 15 Number }
{}

pub fn no_amounts()
    ensures { line (codes "begin 1 add:1:\n") ≡ refused 15 Number }
{}

pub fn no_amount()
    ensures { line (codes "begin 1 add:1:1=\n") ≡ refused 17 Number }
{}

pub fn no_read()
    ensures { line (codes "begin 1 keep:\n") ≡ refused 14 Number }
{}

pub fn sign_of_a_read()
    ensures { line (codes "begin 1 set:-1:-:2\n") ≡ refused 13 Number }
{}

// ---- Keys

pub fn no_key()
    ensures { line (codes "read 1 a+b\n") ≡ refused 8 Key }
{}

pub fn longest_key()
    ensures { line (codes "read 1 " ++ replicate 32 107 ++ codes "\n") ≡ event (Read 1 (replicate 32 107)) }
{}

pub fn too_long_key()
    ensures { line (codes "read 1 " ++ replicate 33 107 ++ codes "\n") ≡ refused 8 Key }
{}

pub fn empty_key()
    ensures { line (codes "begin 1 new::-:1\n") ≡ refused 13 Key }
{}

pub fn key_of_new()
    ensures { line (codes "begin 1 new:a=b:-:1\n") ≡ refused 13 Key }
{}

// ---- Ranges

pub fn centre_zero()
    ensures { line (codes "tick 0\n") ≡ refused 6 Range }
{}

pub fn centre_above()
    ensures { line (codes "tick 6\n") ≡ refused 6 Range }
{}

pub fn message_zero()
    ensures { line (codes "deliver 0\n") ≡ refused 9 Range }
{}

pub fn greatest_message()
    ensures { line (codes "deliver 4294967295\n") ≡ event (Deliver (4294967295 ∷ [])) }
{}

pub fn message_above()
    ensures { line (codes "deliver 4294967296\n") ≡ refused 9 Range }
{}

pub fn greatest_read()
    ensures { line (codes "begin 1 keep:4294967295\n") ≡ begin_line_of (Keep 4294967295) }
{}

pub fn read_above()
    ensures { line (codes "begin 1 keep:4294967296\n") ≡ refused 14 Range }
{}

pub fn read_zero()
    ensures { line (codes "begin 1 keep:0\n") ≡ refused 14 Range }
{}

pub fn call_zero()
    ensures { line (codes "stop 1 0 kept\n") ≡ refused 8 Range }
{}

pub fn greatest_call()
    ensures { line (codes "stop 1 11 kept\n") ≡ event (Stop 1 11 Kept) }
{}

pub fn call_above()
    ensures { line (codes "stop 1 12 kept\n") ≡ refused 8 Range }
{}

pub fn greatest_value()
    ensures { line (codes "begin 1 new:a:-:9223372036854775807\n") ≡ begin_line_of (New (codes "a") (item_with [] (pos 9223372036854775807 ∷ []))) }
{}

pub fn value_above()
    ensures { line (codes "begin 1 new:a:-:9223372036854775808\n") ≡ refused 17 Range }
{}

pub fn least_value()
    ensures { line (codes "begin 1 new:a:-:-9223372036854775808\n") ≡ begin_line_of (New (codes "a") (item_with [] (negsuc 9223372036854775807 ∷ []))) }
{}

pub fn value_below()
    ensures { line (codes "begin 1 new:a:-:-9223372036854775809\n") ≡ refused 17 Range }
{}

pub fn amount_above()
    ensures { line (codes "begin 1 add:1:1=9223372036854775808\n") ≡ refused 17 Range }
{}

pub fn attribute_zero()
    ensures { line (codes "begin 1 add:1:0=1\n") ≡ refused 15 Range }
{}

pub fn attribute_above()
    ensures { line (codes "begin 1 add:1:5=1\n") ≡ refused 15 Range }
{}

pub fn four_values()
    ensures { line (codes "begin 1 set:1:-:1,2,3,4\n") ≡ begin_line_of (Set 1 (item_with [] (pos 1 ∷ pos 2 ∷ pos 3 ∷ pos 4 ∷ []))) }
{}

pub fn fifth_value()
    ensures { line (codes "begin 1 new:a:-:1,2,3,4,5\n") ≡ refused 25 Range }
{}

pub fn fifth_value_is_none()
    ensures { line (codes "begin 1 new:a:-:1,2,3,4,x\n") ≡ refused 25 Range }
{}

pub fn fourth_value_is_first()
    ensures { line (codes "begin 1 new:a:-:1,2,3,x,5\n") ≡ refused 23 Number }
{}

pub fn fifth_amount()
    ensures { line (codes "begin 1 add:1:1=1,2=2,3=3,4=4,5=5\n") ≡ refused 31 Range }
{}

pub fn odd_body()
    ensures { line (codes "begin 1 new:a:012:1\n") ≡ refused 15 Range }
{}

pub fn upper_case_body()
    ensures { line (codes "begin 1 new:a:0F:1\n") ≡ refused 15 Range }
{}

pub fn empty_body()
    ensures { line (codes "begin 1 new:a::1\n") ≡ refused 15 Range }
{}

pub fn no_hexadecimal_body()
    ensures { line (codes "begin 1 new:a:0g:1\n") ≡ refused 15 Range }
{}

pub fn longest_body()
    ensures { line (codes "begin 1 new:a:" ++ replicate 256 48 ++ codes ":1\n") ≡ begin_line_of (New (codes "a") (item_with (replicate 128 0) (pos 1 ∷ []))) }
{}

pub fn too_long_body()
    ensures { line (codes "begin 1 new:a:" ++ replicate 258 48 ++ codes ":1\n") ≡ refused 15 Range }
{}

// ---- Order, and the first fault

pub fn centres_descend()
    ensures { line (codes "settle 2 1\n") ≡ refused 10 Order }
{}

pub fn centre_twice()
    ensures { line (codes "settle 1 3 3\n") ≡ refused 12 Order }
{}

pub fn range_before_order()
    ensures { line (codes "settle 3 6\n") ≡ refused 10 Range }
{}

pub fn first_fault()
    ensures { line (codes "read 6 a+b\n") ≡ refused 6 Range }
{}

pub fn first_part()
    ensures { line (codes "begin 1 new:+:0:x\n") ≡ refused 13 Key }
{}

// ---- Single words

pub fn number_within()
    ensures { number_of (codes "11") 5 (pos 0) (pos 11) ≡ Ok (pos 11) }
{}

pub fn number_above()
    ensures { number_of (codes "12") 5 (pos 0) (pos 11) ≡ refused 5 Range }
{}

pub fn number_with_sign()
    ensures { number_of (codes "-3") 1 (negsuc 4) (pos 0) ≡ Ok (negsuc 2) }
{}

pub fn number_without_sign()
    ensures { number_of (codes "-3") 1 (pos 0) (pos 9) ≡ refused 1 Number }
{}

pub fn number_of_many_digits()
    ensures { number_of (codes "340282366920938463463374607431768211456") 2 (pos 0) (pos 9) ≡ refused 2 Range }
{}

pub fn empty_number()
    ensures { number_of [] 3 (pos 0) (pos 9) ≡ refused 3 Number }
{}

pub fn update_at_a_column()
    ensures { update_of (codes "keep:1") 40 ≡ Ok (Keep 1) }
{}

pub fn update_fault_at_a_column()
    ensures { update_of (codes "keep:x") 40 ≡ refused 45 Number }
{}

pub fn empty_update()
    ensures { update_of [] 40 ≡ refused 40 Word }
{}
