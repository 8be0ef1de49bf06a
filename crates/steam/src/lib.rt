// The basic equation of region 2 of IAPWS-IF97 (002), vapour up to 1073.15 K from p and T. Every call takes
// every number; what it answers is said in specs/.
#![tactic(auto)]

mod region2;

pub use region2::Region2;
