// How logs, messages and images are laid out in bytes: specs/ has it, and the laws about it are in proofs/. Crates log_codec, message_codec and
// image_codec read and write them.
#![tactic(auto)]
