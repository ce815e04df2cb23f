//! What contracts say of finite maps and sets, whatever keeps them. There is no code here.
#![tactic(auto)]
