// The figure, the exact value of demand 3; that L_urban is close to it, and that L_urban is not lower where no level is lower. Both are shown of
// the chosen gears. No code, and no sheet.
#![tactic(auto)]
