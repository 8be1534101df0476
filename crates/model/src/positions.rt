// The tables that calls are lent, by their positions from 0: the place of a refusal for cause 2.
pub const VOLUMES: u64 = 0;

pub const FIRSTS: u64 = 1;

pub const SECONDS: u64 = 2;

pub const SHARES: u64 = 3;

pub const REACHES: u64 = 4;

pub const MASSES: u64 = 5;

pub const FLUXES: u64 = 6;

pub const OUTSIDES: u64 = 7;

pub const NEXT: u64 = 8;

pub const MOVED: u64 = 9;

pub const WORK: u64 = 10;

pub const RECORD: u64 = 11;

pub const PAGE: u64 = 12;

pub const STORE: u64 = 13;

pub const RELEASES: u64 = 14;

pub const LABELS: u64 = 15;

pub const TOTALS: u64 = 16;

pub const ENDS: u64 = 17;

pub const PRICES: u64 = 18;

pub const MARKS: u64 = 19;
