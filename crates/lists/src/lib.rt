// Lists as buffers hold them, and the laws of the loops that fill them or search them from the front, for every layer
// above. There is no code here.

#![tactic(auto)]
