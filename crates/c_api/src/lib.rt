// The public calls as C functions. Each is total, as its call is: nothing is asked but that a pointer and its length are a slice, and a
// bare pointer what its type says. A record is five words of 32 bits: kind, lg_k, cur_min, num_at_cur_min, aux_count.
#![tactic(auto)]

pub mod calls;
pub mod images;
mod record;
