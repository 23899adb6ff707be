// The laws of the tape's definitions: a job written to a tape reads back as that job, and an accepted
// tape written again gives its own bytes (the round trip). There is no code here.

#![tactic(auto)]
