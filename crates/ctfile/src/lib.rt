// Document 02, §1: a molfile read, folded and judged, as definitions. Nothing here runs.
#![tactic(auto)]
