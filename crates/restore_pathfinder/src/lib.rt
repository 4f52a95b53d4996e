// Dialogues: calls of a restore one after the other (01, Restore). It has definitions and proofs and no code: calls are a history of the machine
// of `restore_order`, about which demand 3 is proved, and each write goes out as one frame (proofs/Frames.antt).
#![tactic(auto)]
