//! Headers of schedules, and what they are read as.
ghost use Rattle.std.specs.Prelude.{◌≡◌, pos, negsuc, [], ◌∷◌, ◌++◌, codes, replicate};
ghost use Rattle.mdcc_base.specs.declared.quorums.QuorumFault.TheVariants.{Centres, ClassicRange, FastRange, ClassicMeet, FastMeet};
ghost use Rattle.mdcc_option.specs.declared.cluster.FastLimit.{FastLimit};
ghost use Rattle.mdcc_option.specs.declared.schema.SchemaFault.TheVariants.{Bound};
ghost use Rattle.mdcc_def_language.specs.declared.schedule.HeaderCause.TheVariants.{Sched, Quorums, Schema};
ghost use Rattle.mdcc_def_language.specs.declared.schedule.SchedCause.TheVariants.{Word, Number, Range, Order};
ghost use Rattle.mdcc_def_examples.specs.Texts.{header_read, accepted_header, header_fault, five_centres};

// ---- Accepted headers

pub fn plain_header()
    ensures { header_read (codes "mdcc-schedule 1\nquorums 5 3 4\ngamma 100\nbound 0 1000\nstart\n") ≡ accepted_header five_centres 59 }
{}

pub fn header_before_lines()
    ensures { header_read (codes "mdcc-schedule 1\nquorums 5 3 4\ngamma 100\nbound 0 1000\nstart\ntick 1\n") ≡ accepted_header five_centres 59 }
{}

pub fn header_with_cells()
    ensures { header_read (codes "mdcc-schedule 1\nquorums 5 3 4\ngamma 100\ncells 3\nbound 0 1000\nstart\n") ≡ accepted_header (record five_centres { cells = 3 }) 67 }
{}

pub fn most_cells()
    ensures { header_read (codes "mdcc-schedule 1\nquorums 5 3 4\ngamma 100\ncells 4194304\nbound 0 1000\nstart\n") ≡ accepted_header (record five_centres { cells = 4194304 }) 73 }
{}

pub fn header_with_the_safe_limit()
    ensures { header_read (codes "mdcc-schedule 1\nquorums 5 3 4\ngamma 100\nlimit safe\nbound 0 1000\nstart\n") ≡ accepted_header five_centres 70 }
{}

pub fn header_with_cells_and_the_wider_limit()
    ensures { header_read (codes "mdcc-schedule 1\nquorums 5 3 4\ngamma 100\ncells 3\nlimit paper\nbound 0 1000\nstart\n") ≡ accepted_header (record five_centres { cells = 3; limit = FastLimit.Paper }) 79 }
{}

pub fn header_of_one_centre()
    ensures { header_read (codes "mdcc-schedule 1\nquorums 1 1 1\ngamma 0\nbound 0 1000\nstart\n") ≡ accepted_header (record five_centres { quorums = record { centres = 1; classic = 1; fast = 1 }; gamma = 0 }) 57 }
{}

pub fn widest_header()
    ensures { header_read (codes "mdcc-schedule 1\nquorums 9 5 7\ngamma 1000\nbound -1000000000000000 1000000000000000\nstart\n") ≡ accepted_header (record five_centres { quorums = record { centres = 9; classic = 5; fast = 7 }; gamma = 1000; schema = (negsuc 999999999999999, pos 1000000000000000) ∷ [] }) 88 }
{}

pub fn four_bounds()
    ensures { header_read (codes "mdcc-schedule 1\nquorums 5 3 4\ngamma 100\nbound 0 0\nbound -1 1\nbound 2 3\nbound -5 -4\nstart\n") ≡ accepted_header (record five_centres { schema = (pos 0, pos 0) ∷ (negsuc 0, pos 1) ∷ (pos 2, pos 3) ∷ (negsuc 4, negsuc 3) ∷ [] }) 89 }
{}

// ---- Lines out of their places

pub fn empty_input()
    ensures { header_read (codes "") ≡ header_fault 1 (Sched Order) }
{}

pub fn input_ends_behind_the_first_line()
    ensures { header_read (codes "mdcc-schedule 1\n") ≡ header_fault 2 (Sched Order) }
{}

pub fn input_ends_before_start()
    ensures { header_read (codes "mdcc-schedule 1\nquorums 5 3 4\ngamma 100\nbound 0 1000\n") ≡ header_fault 5 (Sched Order) }
{}

pub fn other_first_line()
    ensures { header_read (codes "schedule 1\n") ≡ header_fault 1 (Sched Order) }
{}

pub fn empty_header_line()
    ensures { header_read (codes "mdcc-schedule 1\n\nquorums 5 3 4\n") ≡ header_fault 2 (Sched Order) }
{}

pub fn comment_in_a_header()
    ensures { header_read (codes "mdcc-schedule 1\n# five\nquorums 5 3 4\n") ≡ header_fault 2 (Sched Order) }
{}

pub fn gamma_before_quorums()
    ensures { header_read (codes "mdcc-schedule 1\ngamma 100\nquorums 5 3 4\n") ≡ header_fault 2 (Sched Order) }
{}

pub fn no_gamma()
    ensures { header_read (codes "mdcc-schedule 1\nquorums 5 3 4\nbound 0 1000\nstart\n") ≡ header_fault 3 (Sched Order) }
{}

pub fn no_bound()
    ensures { header_read (codes "mdcc-schedule 1\nquorums 5 3 4\ngamma 100\nstart\n") ≡ header_fault 4 (Sched Order) }
{}

pub fn five_bounds()
    ensures { header_read (codes "mdcc-schedule 1\nquorums 5 3 4\ngamma 100\nbound 0 1000\nbound 0 1000\nbound 0 1000\nbound 0 1000\nbound 0 1000\nstart\n") ≡ header_fault 8 (Sched Order) }
{}

pub fn bound_out_of_place()
    ensures { header_read (codes "mdcc-schedule 1\nquorums 5 3 4\ngamma 100\nbound 0 1000\ngamma 1\nbound 0 1000\nstart\n") ≡ header_fault 5 (Sched Order) }
{}

pub fn cells_behind_bound()
    ensures { header_read (codes "mdcc-schedule 1\nquorums 5 3 4\ngamma 100\nbound 0 1000\ncells 3\nstart\n") ≡ header_fault 5 (Sched Order) }
{}

pub fn cells_twice()
    ensures { header_read (codes "mdcc-schedule 1\nquorums 5 3 4\ngamma 100\ncells 3\ncells 3\nbound 0 1000\nstart\n") ≡ header_fault 5 (Sched Order) }
{}

// ---- Words

pub fn other_version()
    ensures { header_read (codes "mdcc-schedule 2\n") ≡ header_fault 1 (Sched Word) }
{}

pub fn no_version()
    ensures { header_read (codes "mdcc-schedule\n") ≡ header_fault 1 (Sched Word) }
{}

pub fn version_without_line_end()
    ensures { header_read (codes "mdcc-schedule 1") ≡ header_fault 1 (Sched Word) }
{}

pub fn start_without_line_end()
    ensures { header_read (codes "mdcc-schedule 1\nquorums 5 3 4\ngamma 100\nbound 0 1000\nstart") ≡ header_fault 5 (Sched Word) }
{}

pub fn word_behind_start()
    ensures { header_read (codes "mdcc-schedule 1\nquorums 5 3 4\ngamma 100\nbound 0 1000\nstart 1\n") ≡ header_fault 5 (Sched Word) }
{}

pub fn space_behind_start()
    ensures { header_read (codes "mdcc-schedule 1\nquorums 5 3 4\ngamma 100\nbound 0 1000\nstart \n") ≡ header_fault 5 (Sched Word) }
{}

pub fn two_quorums()
    ensures { header_read (codes "mdcc-schedule 1\nquorums 5 3\n") ≡ header_fault 2 (Sched Word) }
{}

pub fn four_quorums()
    ensures { header_read (codes "mdcc-schedule 1\nquorums 5 3 4 4\n") ≡ header_fault 2 (Sched Word) }
{}

pub fn quorums_are_no_numbers()
    ensures { header_read (codes "mdcc-schedule 1\nquorums 5 three 4\n") ≡ header_fault 2 (Sched Number) }
{}

pub fn quorums_above_255()
    ensures { header_read (codes "mdcc-schedule 1\nquorums 5 3 256\n") ≡ header_fault 2 (Sched Range) }
{}

pub fn unknown_limit()
    ensures { header_read (codes "mdcc-schedule 1\nquorums 5 3 4\ngamma 100\nlimit wide\nbound 0 1000\nstart\n") ≡ header_fault 4 (Sched Word) }
{}

pub fn limit_with_two_words()
    ensures { header_read (codes "mdcc-schedule 1\nquorums 5 3 4\ngamma 100\nlimit safe safe\nbound 0 1000\nstart\n") ≡ header_fault 4 (Sched Word) }
{}

pub fn limit_before_cells()
    ensures { header_read (codes "mdcc-schedule 1\nquorums 5 3 4\ngamma 100\nlimit safe\ncells 3\nbound 0 1000\nstart\n") ≡ header_fault 5 (Sched Order) }
{}

pub fn gamma_above()
    ensures { header_read (codes "mdcc-schedule 1\nquorums 5 3 4\ngamma 1001\n") ≡ header_fault 3 (Sched Range) }
{}

pub fn gamma_with_sign()
    ensures { header_read (codes "mdcc-schedule 1\nquorums 5 3 4\ngamma -1\n") ≡ header_fault 3 (Sched Number) }
{}

pub fn no_cells()
    ensures { header_read (codes "mdcc-schedule 1\nquorums 5 3 4\ngamma 100\ncells 0\nbound 0 1000\nstart\n") ≡ header_fault 4 (Sched Range) }
{}

pub fn cells_above()
    ensures { header_read (codes "mdcc-schedule 1\nquorums 5 3 4\ngamma 100\ncells 4194305\nbound 0 1000\nstart\n") ≡ header_fault 4 (Sched Range) }
{}

pub fn half_a_bound()
    ensures { header_read (codes "mdcc-schedule 1\nquorums 5 3 4\ngamma 100\nbound 0\n") ≡ header_fault 4 (Sched Word) }
{}

pub fn bound_of_65_bits()
    ensures { header_read (codes "mdcc-schedule 1\nquorums 5 3 4\ngamma 100\nbound 0 9223372036854775808\n") ≡ header_fault 4 (Sched Range) }
{}

pub fn too_long_line_out_of_order()
    ensures { header_read (replicate 5000 120 ++ codes "\n") ≡ header_fault 1 (Sched Order) }
{}

pub fn too_long_line_of_another_version()
    ensures { header_read (codes "mdcc-schedule 2" ++ replicate 4082 32) ≡ header_fault 1 (Sched Word) }
{}

// ---- Quorums and bounds

pub fn ten_centres()
    ensures { header_read (codes "mdcc-schedule 1\nquorums 10 6 8\n") ≡ header_fault 2 (Quorums Centres) }
{}

pub fn no_classic_quorum()
    ensures { header_read (codes "mdcc-schedule 1\nquorums 5 0 4\n") ≡ header_fault 2 (Quorums ClassicRange) }
{}

pub fn fast_quorum_above()
    ensures { header_read (codes "mdcc-schedule 1\nquorums 5 3 6\n") ≡ header_fault 2 (Quorums FastRange) }
{}

pub fn classic_quorums_apart()
    ensures { header_read (codes "mdcc-schedule 1\nquorums 5 2 5\n") ≡ header_fault 2 (Quorums ClassicMeet) }
{}

pub fn fast_quorums_apart()
    ensures { header_read (codes "mdcc-schedule 1\nquorums 5 3 3\n") ≡ header_fault 2 (Quorums FastMeet) }
{}

pub fn grammar_before_quorums()
    ensures { header_read (codes "mdcc-schedule 1\nquorums 5 3 3") ≡ header_fault 2 (Sched Word) }
{}

pub fn bound_upside_down()
    ensures { header_read (codes "mdcc-schedule 1\nquorums 5 3 4\ngamma 100\nbound 5 4\nstart\n") ≡ header_fault 4 (Schema (Bound 1)) }
{}

pub fn bound_too_great()
    ensures { header_read (codes "mdcc-schedule 1\nquorums 5 3 4\ngamma 100\nbound 0 1000000000000001\nstart\n") ≡ header_fault 4 (Schema (Bound 1)) }
{}

pub fn third_bound_upside_down()
    ensures { header_read (codes "mdcc-schedule 1\nquorums 5 3 4\ngamma 100\nbound 0 1000\nbound 0 1000\nbound 5 4\nbound 6 5\nstart\n") ≡ header_fault 6 (Schema (Bound 3)) }
{}
