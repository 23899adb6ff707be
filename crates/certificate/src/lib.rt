// Demand 3, the certificate, and request F-5, two flows of one problem, proved of the definitions:
// for every pair system, every flow, every image of the box and every whole division. There is no
// code here.

#![tactic(auto)]
