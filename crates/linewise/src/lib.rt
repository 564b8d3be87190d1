// What a program prints line by line for an input that it takes in blocks: definitions and laws, no code. Each program has the loop for its own lines.
#![tactic(auto)]
