// The basic equation of region 5 of IAPWS-IF97 as revised in 2007 (R7-97), vapour above 1073.15 K from p and T.
// Every call takes every number; what it answers is said in specs/.
#![tactic(auto)]

mod region5;

pub use region5::Region5;
