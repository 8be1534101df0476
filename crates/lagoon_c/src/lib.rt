// The calls from C: what the static library exports. Each is the library's function of its name, and promises what that promises.
// tools/exports.py writes these files.
#![tactic(auto)]

mod host_board_c;
mod host_crossing_c;
mod host_cut_c;
mod host_cutting_c;
mod host_field_c;
mod host_judge_c;
mod host_period_c;
mod host_plain_c;
mod host_read_c;
mod host_record_board_c;
mod host_record_cells_c;
mod host_share_c;
mod host_tables_c;
mod host_write_c;
mod lagoon_step_c;
