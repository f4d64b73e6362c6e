// The library for C, files and depths: exported functions, each one public call with its numbers in place of structs. Each returns 0 or the refusal number,
// haze_ppm_length alone a length, and on a refusal nothing that it was lent changes, result places included.
#![tactic(auto)]

mod depths;
mod netpbm;
