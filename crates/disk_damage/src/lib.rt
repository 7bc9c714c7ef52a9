// Theorems only: images that were saved on a disk, and are read back when bytes of the disk have changed.
#![tactic(auto)]
