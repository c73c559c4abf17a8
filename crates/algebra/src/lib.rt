// Fields of characteristic two, polynomials over them, and linear equations: there is no code here.
#![tactic(auto)]
