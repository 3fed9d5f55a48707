// The pins of the ports: a table, and their nibbles in a number, for the chip, the image and the trace. It has no code.
#![tactic(auto)]
