// What a recording prints (document 02, Item 4), as definitions and a theorem about them. There is no code here.
#![tactic(auto)]
